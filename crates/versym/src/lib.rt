// The symbol version table (SHT_GNU_versym): for each symbol a number of 16 bits, with the version and whether it is hidden.
#![tactic(auto)]

ghost use Rattle.std.specs.Prelude.{◌≡◌, Err};
ghost use Rattle.answer.specs.Test.{in_limit};
ghost use Rattle.version_section.specs.Section.{lent_of};
ghost use Rattle.versym.specs.Versym.{versym_of, count_in_of, count_of, get_at_in_of, get_at_of};
ghost use Rattle.versym.specs.Answers.{numbers_of};

use answer::{Numbers, Reason, Refusal};
use fields::Unsigned;
use version_section::CountEntries;

const SIZE: usize = 2;

const HIDDEN: u16 = 0x8000;

#[derive(Clone, Copy, Debug, PartialEq, Eq)]
pub struct Versym {
    pub hidden: bool,
    pub version: u16,
}

impl Numbers<2> for Versym {
    ghost numbers = { numbers_of };

    fn numbers(self) -> [u64; 2] {
        [self.hidden.into(), self.version.into()]
    }
}

// How many entries the section of `size` bytes from `start` has.
pub fn count(file: &[u8], start: usize, size: usize) -> Result<CountEntries, Refusal>
    ensures { result ≡ count_of file.now start size }
{
    Ok(count_in(section(file, start, size)?))
}

// The entry at `index` of that section.
pub fn get_at(
    file: &[u8],
    start: usize,
    size: usize,
    index: usize,
    big: bool,
) -> Result<Versym, Refusal>
    ensures { result ≡ get_at_of big file.now start size index }
{
    get_at_in(section(file, start, size)?, index, big)
}

// How many entries a section's own bytes have.
pub fn count_in(section: &[u8]) -> CountEntries
    ensures { result ≡ count_in_of section.now }
{
    let entries = section.len() / SIZE;
    if section.len() % SIZE == 0 {
        CountEntries::Whole(entries)
    } else {
        CountEntries::Cut(entries)
    }
}

// The entry at `index` of a section's own bytes.
pub fn get_at_in(section: &[u8], index: usize, big: bool) -> Result<Versym, Refusal>
    ensures { result ≡ get_at_in_of big section.now index }
{
    if index < section.len() / SIZE {
        let value = u16::read(section, SIZE * index, big)?;
        return Ok(versym_of(value));
    }
    Err(Reason::NotFound.into())
}

// The bytes of a section of a file that is not too long.
fn section(file: &[u8], start: usize, size: usize) -> Result<&[u8], Refusal>
    ensures { result ≡ in_limit Err file.now (lent_of file.entry start size) }
{
    if answer::FILE_LIMIT < file.len() {
        return Err(Reason::Limit.into());
    }
    version_section::section(file, start, size)
}

fn versym_of(value: u16) -> Versym
    ensures { result ≡ versym_of value }
{
    Versym {
        hidden: value / HIDDEN == 1,
        version: value % HIDDEN,
    }
}
