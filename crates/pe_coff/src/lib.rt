// The COFF file header of an image, read from lent bytes.
#![tactic(auto)]

ghost use Rattle.std.specs.Prelude.{◌≡◌};
ghost use Rattle.pe_coff.specs.Coff.{numbers_of, read_of};

use answer::{Numbers, Reason, Refusal};
use cursor::Cursor;

// The bytes of the header.
pub const SIZE: usize = 20;

#[derive(Clone, Copy, Debug, PartialEq, Eq)]
pub struct CoffHeader {
    pub machine: u16,
    pub number_of_sections: u16,
    pub time_date_stamp: u32,
    pub pointer_to_symbol_table: u32,
    pub number_of_symbols: u32,
    pub size_of_optional_header: u16,
    pub characteristics: u16,
}

impl Numbers<7> for CoffHeader {
    ghost numbers = { numbers_of };

    fn numbers(self) -> [u64; 7] {
        [
            self.machine.into(),
            self.number_of_sections.into(),
            self.time_date_stamp.into(),
            self.pointer_to_symbol_table.into(),
            self.number_of_symbols.into(),
            self.size_of_optional_header.into(),
            self.characteristics.into(),
        ]
    }
}

// The header at `at`; a section count above the limit is refused before the fields after it are read.
pub fn read(s: &[u8], at: usize) -> Result<CoffHeader, Refusal>
    ensures { result ≡ read_of s.now at }
{
    let cursor = Cursor::new(at);
    let (machine, cursor) = cursor.next(s, false)?;
    let (number_of_sections, cursor) = cursor.next(s, false)?;
    let count = number_of_sections as usize;
    if pe_section::LIMIT < count {
        return Err(Reason::Limit.into());
    }
    let (time_date_stamp, cursor) = cursor.next(s, false)?;
    let (pointer_to_symbol_table, cursor) = cursor.next(s, false)?;
    let (number_of_symbols, cursor) = cursor.next(s, false)?;
    let (size_of_optional_header, cursor) = cursor.next(s, false)?;
    let (characteristics, _) = cursor.next(s, false)?;
    Ok(CoffHeader {
        machine,
        number_of_sections,
        time_date_stamp,
        pointer_to_symbol_table,
        number_of_symbols,
        size_of_optional_header,
        characteristics,
    })
}
