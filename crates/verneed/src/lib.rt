// The versions that a file needs (SHT_GNU_verneed): the list of the files that it needs them of, and the list of one's auxiliaries,
// which are the versions.
#![tactic(auto)]

ghost use Rattle.std.specs.Prelude.{◌≡◌};
ghost use Rattle.verneed.specs.Verneed.{needs_of, needs_out, auxiliaries_of, auxiliaries_out};

use answer::Refusal;
use version_record::VersionRecord;
use version_section::CountEntries;

// The numbers of a need's row, and where each is in it.
pub const NUMBERS: usize = 6;

pub const PLACE: usize = 0;

pub const VERSION: usize = 1;

pub const CNT: usize = 2;

pub const FILE: usize = 3;

pub const AUX: usize = 4;

pub const NEXT: usize = 5;

// The same of an auxiliary's row.
pub const AUX_NUMBERS: usize = 6;

pub const AUX_PLACE: usize = 0;

pub const AUX_HASH: usize = 1;

pub const AUX_FLAGS: usize = 2;

pub const AUX_OTHER: usize = 3;

pub const AUX_NAME: usize = 4;

pub const AUX_NEXT: usize = 5;

// The needs of the section of `len` bytes from `start`, which states so many.
pub fn needs(
    file: &[u8],
    start: usize,
    len: usize,
    stated: usize,
    big: bool,
    out: &mut [u32],
) -> Result<CountEntries, Refusal>
    ensures { (result ≡ needs_of big file.now start len stated out.old)
        × (out.new ≡ needs_out big file.now start len stated out.old) }
{
    version_list::list(
        file,
        start,
        len,
        stated,
        0,
        big,
        VersionRecord::Verneed,
        out,
    )
}

// The auxiliaries of a need of that section, by its row: its place, and how far from it and how many they are.
pub fn auxiliaries(
    file: &[u8],
    start: usize,
    len: usize,
    place: u32,
    aux: u32,
    cnt: u32,
    big: bool,
    out: &mut [u32],
) -> Result<CountEntries, Refusal>
    ensures { (result ≡ auxiliaries_of big file.now start len place aux cnt out.old)
        × (out.new ≡ auxiliaries_out big file.now start len place aux cnt out.old) }
{
    let at = place as usize + aux as usize;
    version_list::list(
        file,
        start,
        len,
        cnt as usize,
        at,
        big,
        VersionRecord::Vernaux,
        out,
    )
}
