// The version definitions of a file (SHT_GNU_verdef): the list of them, and the list of one's auxiliaries, which are names.
#![tactic(auto)]

ghost use Rattle.std.specs.Prelude.{◌≡◌};
ghost use Rattle.verdef.specs.Verdef.{definitions_of, definitions_out, auxiliaries_of, auxiliaries_out};

use answer::Refusal;
use version_record::VersionRecord;
use version_section::CountEntries;

// The numbers of a definition's row, and where each is in it.
pub const NUMBERS: usize = 8;

pub const PLACE: usize = 0;

pub const VERSION: usize = 1;

pub const FLAGS: usize = 2;

pub const NDX: usize = 3;

pub const CNT: usize = 4;

pub const HASH: usize = 5;

pub const AUX: usize = 6;

pub const NEXT: usize = 7;

// The same of an auxiliary's row.
pub const AUX_NUMBERS: usize = 3;

pub const AUX_PLACE: usize = 0;

pub const AUX_NAME: usize = 1;

pub const AUX_NEXT: usize = 2;

// The definitions of the section of `len` bytes from `start`, which states so many.
pub fn definitions(
    file: &[u8],
    start: usize,
    len: usize,
    stated: usize,
    big: bool,
    out: &mut [u32],
) -> Result<CountEntries, Refusal>
    ensures { (result ≡ definitions_of big file.now start len stated out.old)
        × (out.new ≡ definitions_out big file.now start len stated out.old) }
{
    version_list::list(file, start, len, stated, 0, big, VersionRecord::Verdef, out)
}

// The auxiliaries of a definition of that section, by its row: its place, and how far from it and how many they are.
pub fn auxiliaries(
    file: &[u8],
    start: usize,
    len: usize,
    place: u32,
    aux: u32,
    cnt: u32,
    big: bool,
    out: &mut [u32],
) -> Result<CountEntries, Refusal>
    ensures { (result ≡ auxiliaries_of big file.now start len place aux cnt out.old)
        × (out.new ≡ auxiliaries_out big file.now start len place aux cnt out.old) }
{
    let at = place as usize + aux as usize;
    version_list::list(
        file,
        start,
        len,
        cnt as usize,
        at,
        big,
        VersionRecord::Verdaux,
        out,
    )
}
