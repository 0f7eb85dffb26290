// The section table of an image: a row read from lent bytes, and the row at an index of a table.
#![tactic(auto)]

ghost use Rattle.std.specs.Prelude.{◌≡◌};
ghost use Rattle.pe_section.specs.Section.{numbers_of, name_bytes_of, read_of, get_row_of};

use answer::{Numbers, Reason, Refusal};
use cursor::Cursor;

// The bytes of a row.
pub const SIZE: usize = 40;

// The most sections that a table may have.
pub const LIMIT: usize = 96;

#[derive(Clone, Copy, Debug, PartialEq, Eq)]
pub struct SectionTable {
    // The eight bytes of the name as one number, the first the least significant: `name_bytes` hands them out.
    pub name: u64,
    pub virtual_size: u32,
    pub virtual_address: u32,
    pub size_of_raw_data: u32,
    pub pointer_to_raw_data: u32,
    pub pointer_to_relocations: u32,
    pub pointer_to_linenumbers: u32,
    pub number_of_relocations: u16,
    pub number_of_linenumbers: u16,
    pub characteristics: u32,
}

impl SectionTable {
    pub fn name_bytes(self) -> [u8; 8]
        ensures { result ≡ name_bytes_of self }
    {
        self.name.to_le_bytes()
    }
}

impl Numbers<10> for SectionTable {
    ghost numbers = { numbers_of };

    fn numbers(self) -> [u64; 10] {
        [
            self.name,
            self.virtual_size.into(),
            self.virtual_address.into(),
            self.size_of_raw_data.into(),
            self.pointer_to_raw_data.into(),
            self.pointer_to_relocations.into(),
            self.pointer_to_linenumbers.into(),
            self.number_of_relocations.into(),
            self.number_of_linenumbers.into(),
            self.characteristics.into(),
        ]
    }
}

// The row at an index of the table that starts at `table` and has `count` rows.
pub fn get_row(
    file: &[u8],
    table: usize,
    count: usize,
    index: usize,
) -> Result<SectionTable, Refusal>
    ensures { result ≡ get_row_of file.now table count index }
{
    if answer::FILE_LIMIT < file.len() || LIMIT < count {
        return Err(Reason::Limit.into());
    }
    if count <= index {
        return Err(Reason::NotFound.into());
    }
    let Some(at) = table.checked_add(SIZE * index) else {
        // A row past 64 bits is in no file.
        return Err(answer::beyond());
    };
    read(file, at)
}

// The row at `at`.
pub fn read(s: &[u8], at: usize) -> Result<SectionTable, Refusal>
    ensures { result ≡ read_of s.now at }
{
    let cursor = Cursor::new(at);
    let (name, cursor) = cursor.next(s, false)?;
    let (virtual_size, cursor) = cursor.next(s, false)?;
    let (virtual_address, cursor) = cursor.next(s, false)?;
    let (size_of_raw_data, cursor) = cursor.next(s, false)?;
    let (pointer_to_raw_data, cursor) = cursor.next(s, false)?;
    let (pointer_to_relocations, cursor) = cursor.next(s, false)?;
    let (pointer_to_linenumbers, cursor) = cursor.next(s, false)?;
    let (number_of_relocations, cursor) = cursor.next(s, false)?;
    let (number_of_linenumbers, cursor) = cursor.next(s, false)?;
    let (characteristics, _) = cursor.next(s, false)?;
    Ok(SectionTable {
        name,
        virtual_size,
        virtual_address,
        size_of_raw_data,
        pointer_to_raw_data,
        pointer_to_relocations,
        pointer_to_linenumbers,
        number_of_relocations,
        number_of_linenumbers,
        characteristics,
    })
}
