// The fields of the optional header that later doors need, read from lent bytes inside its stated size.
#![tactic(auto)]

ghost use Rattle.std.specs.Prelude.{◌≡◌};
ghost use Rattle.pe_optional.specs.Optional.{magic_of, magic_named, count_at, exception_at, needed, fields_at, read_of};
ghost use Rattle.pe_optional.specs.Answers.{header_numbers};

use answer::{Numbers, Reason, Refusal};
use fields::Unsigned;

const PE32: u16 = 0x10B;

const PE32_PLUS: u16 = 0x20B;

const FILE_ALIGNMENT: usize = 36;

// The index of the exception directory.
const EXCEPTION_INDEX: u32 = 3;

// Which form of the header the magic number names.
#[derive(Clone, Copy, Debug, PartialEq, Eq)]
pub enum OptionalMagic {
    Pe32,
    Pe32Plus,
}

impl TryFrom<u16> for OptionalMagic {
    type Error = Refusal;

    ghost try_from_gives = { λ n r. r ≡ magic_named n };

    fn try_from(number: u16) -> Result<OptionalMagic, Refusal> {
        match number {
            PE32 => Ok(OptionalMagic::Pe32),
            PE32_PLUS => Ok(OptionalMagic::Pe32Plus),
            _ => Err(Reason::Magic.into()),
        }
    }
}

impl From<OptionalMagic> for u64 {
    ghost from_gives = { λ m n. n ≡ magic_of m };

    fn from(magic: OptionalMagic) -> u64 {
        match magic {
            OptionalMagic::Pe32 => PE32.into(),
            OptionalMagic::Pe32Plus => PE32_PLUS.into(),
        }
    }
}

#[derive(Clone, Copy, Debug, Default, PartialEq, Eq)]
pub struct DataDirectory {
    pub virtual_address: u32,
    pub size: u32,
}

#[derive(Clone, Copy, Debug, PartialEq, Eq)]
pub struct OptionalHeader {
    pub magic: OptionalMagic,
    pub file_alignment: u32,
    pub number_of_directories: u32,
    pub exceptions: Option<DataDirectory>,
}

// Its numbers have zeros in place of an exception directory that is missing.
impl Numbers<5> for OptionalHeader {
    ghost numbers = { header_numbers };

    fn numbers(self) -> [u64; 5] {
        let directory = self.exceptions.unwrap_or_default();
        [
            self.magic.into(),
            self.file_alignment.into(),
            self.number_of_directories.into(),
            directory.virtual_address.into(),
            directory.size.into(),
        ]
    }
}

// The fields of the header at `at`, whose stated size is `size`.
pub fn read(s: &[u8], at: usize, size: usize) -> Result<OptionalHeader, Refusal>
    ensures { result ≡ read_of s.now at size }
{
    let number = u16::read(s, at, false)?;
    let magic = OptionalMagic::try_from(number)?;
    read_fields(s, at, size, magic)
}

// The fields after the magic number.
fn read_fields(
    s: &[u8],
    at: usize,
    size: usize,
    magic: OptionalMagic,
) -> Result<OptionalHeader, Refusal>
    ensures { result ≡ fields_at s.now at size magic }
{
    if size < 2 {
        return Err(Reason::Contradiction.into());
    }
    let file_alignment = read_needed(s, at, size, FILE_ALIGNMENT)?;
    let number_of_directories = read_needed(s, at, size, count_at(magic))?;
    if number_of_directories <= EXCEPTION_INDEX {
        return Ok(OptionalHeader {
            magic,
            file_alignment,
            number_of_directories,
            exceptions: None,
        });
    }
    let virtual_address = read_needed(s, at, size, exception_at(magic))?;
    let length = read_needed(s, at, size, exception_at(magic) + 4)?;
    Ok(OptionalHeader {
        magic,
        file_alignment,
        number_of_directories,
        exceptions: Some(DataDirectory {
            virtual_address,
            size: length,
        }),
    })
}

// The offset of the number of directories.
fn count_at(magic: OptionalMagic) -> usize
    ensures { result ≡ count_at magic }
{
    match magic {
        OptionalMagic::Pe32 => 92,
        OptionalMagic::Pe32Plus => 108,
    }
}

// The offset of the exception directory.
fn exception_at(magic: OptionalMagic) -> usize
    ensures { result ≡ exception_at magic }
{
    match magic {
        OptionalMagic::Pe32 => 120,
        OptionalMagic::Pe32Plus => 136,
    }
}

// The field at an offset of the header, which has to lie inside its stated size.
fn read_needed(s: &[u8], at: usize, size: usize, offset: usize) -> Result<u32, Refusal>
    ensures { result ≡ needed Err s.now at size offset Ok }
{
    let Some(place) = at.checked_add(offset) else {
        // A field past 64 bits is in no file.
        return Err(answer::beyond());
    };
    let field = u32::read(s, place, false)?;
    if fields::fits(size, offset, 4) {
        return Ok(field);
    }
    Err(Reason::Contradiction.into())
}
