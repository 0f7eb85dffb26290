// The headers of an image: every check of the headers and of the section table, in file order, and the numbers that later doors need.
#![tactic(auto)]

ghost use Rattle.std.specs.Prelude.{◌≡◌};
ghost use Rattle.pe_header.specs.Header.{coff_in, rows_at, open_of};
ghost use Rattle.pe_header.specs.Answers.{header_numbers};

use answer::{Numbers, Reason, Refusal};
use fields::Unsigned;
use pe_coff::CoffHeader;
use pe_optional::{DataDirectory, OptionalMagic};

const SIGNATURE: u32 = 0x00004550;

// What the headers of an accepted file say; the offsets count from its front.
#[derive(Clone, Copy, Debug, PartialEq, Eq)]
pub struct Header {
    pub pe_pointer: usize,
    pub machine: u16,
    pub number_of_sections: usize,
    pub optional_offset: usize,
    pub optional_size: usize,
    pub magic: OptionalMagic,
    pub file_alignment: u32,
    pub number_of_directories: u32,
    pub exceptions: Option<DataDirectory>,
    pub section_table: usize,
}

// Its numbers have zeros in place of an exception directory that is missing.
impl Numbers<11> for Header {
    ghost numbers = { header_numbers };

    fn numbers(self) -> [u64; 11] {
        let directory = self.exceptions.unwrap_or_default();
        [
            self.pe_pointer as u64,
            self.machine.into(),
            self.number_of_sections as u64,
            self.optional_offset as u64,
            self.optional_size as u64,
            self.magic.into(),
            self.file_alignment.into(),
            self.number_of_directories.into(),
            directory.virtual_address.into(),
            directory.size.into(),
            self.section_table as u64,
        ]
    }
}

pub fn open(file: &[u8]) -> Result<Header, Refusal>
    ensures { result ≡ open_of file.now }
{
    if answer::FILE_LIMIT < file.len() {
        return Err(Reason::Limit.into());
    }
    let dos = pe_dos::read(file, 0)?;
    let pe_pointer = dos.pe_pointer as usize;
    let coff = read_coff(file, pe_pointer)?;
    let optional_offset = pe_pointer + 4 + pe_coff::SIZE;
    let optional_size = coff.size_of_optional_header as usize;
    let optional = pe_optional::read(file, optional_offset, optional_size)?;
    let section_table = optional_offset + optional_size;
    let number_of_sections = coff.number_of_sections as usize;
    read_rows(file, section_table, number_of_sections)?;
    Ok(Header {
        pe_pointer,
        machine: coff.machine,
        number_of_sections,
        optional_offset,
        optional_size,
        magic: optional.magic,
        file_alignment: optional.file_alignment,
        number_of_directories: optional.number_of_directories,
        exceptions: optional.exceptions,
        section_table,
    })
}

// The COFF header after the signature, which the PE pointer leads to.
fn read_coff(file: &[u8], at: usize) -> Result<CoffHeader, Refusal>
    ensures { result ≡ coff_in file.now at }
{
    let signature = u32::read(file, at, false)?;
    if signature != SIGNATURE {
        return Err(Reason::Magic.into());
    }
    pe_coff::read(file, at + 4)
}

// Whether all rows of the section table are there.
fn read_rows(file: &[u8], table: usize, count: usize) -> Result<(), Refusal>
    ensures { result ≡ rows_at Err count file.now table (Ok tt) }
{
    let mut at = table;
    for _ in 0..count {
        pe_section::read(file, at)?;
        at += pe_section::SIZE;
    }
    Ok(())
}
