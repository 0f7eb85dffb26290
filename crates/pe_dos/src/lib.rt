// The DOS header that an image begins with (`DosHeader`), read from lent bytes and written into them.
#![tactic(auto)]

ghost use Rattle.std.specs.Prelude.{◌≡◌, false, ◌∷◌, [], ◌+◌, ◌≤◌, length, take};
ghost use Rattle.fields.specs.Field.{put};
ghost use Rattle.layout.specs.Layout.{elements, array, write_by};
ghost use Rattle.pe_dos.specs.Dos.{header_of, numbers_of, read_of, write_of, write_out};
ghost use Rattle.pe_dos.specs.Code.{halves_at};

use answer::{Reason, Refusal};
use cursor::Cursor;
use fields::Unsigned;

// The bytes of the header.
pub const SIZE: usize = 64;

pub const SIGNATURE: u16 = 0x5A4D;

#[derive(Clone, Copy, Debug, PartialEq, Eq)]
pub struct DosHeader {
    pub signature: u16,
    pub bytes_on_last_page: u16,
    pub pages_in_file: u16,
    pub relocations: u16,
    pub size_of_header_in_paragraphs: u16,
    pub minimum_extra_paragraphs_needed: u16,
    pub maximum_extra_paragraphs_needed: u16,
    pub initial_relative_ss: u16,
    pub initial_sp: u16,
    pub checksum: u16,
    pub initial_ip: u16,
    pub initial_relative_cs: u16,
    pub file_address_of_relocation_table: u16,
    pub overlay_number: u16,
    pub reserved: [u16; 4],
    pub oem_id: u16,
    pub oem_info: u16,
    pub reserved2: [u16; 10],
    pub pe_pointer: u32,
}

pub fn read(s: &[u8], at: usize) -> Result<DosHeader, Refusal>
    ensures { result ≡ read_of s.now at }
{
    let cursor = Cursor::new(at);
    let (signature, cursor) = cursor.next(s, false)?;
    if signature != SIGNATURE {
        return Err(Reason::Magic.into());
    }
    let (halves, cursor) = halves_at(s, cursor)?;
    let (pe_pointer, _) = cursor.next(s, false)?;
    Ok(header_of(signature, halves, pe_pointer))
}

pub fn write(out: &mut [u8], at: usize, header: DosHeader) -> Result<(), Refusal>
    ensures { (result ≡ write_of out.old at header) × (out.new ≡ write_out out.old at header) }
{
    if header.signature != SIGNATURE {
        return Err(Reason::Magic.into());
    }
    if fields::fits(out.len(), at, SIZE) {
        // There is room for the header, so nothing here is refused.
        put_halves(out, at, halves_of(header))?;
        header.pe_pointer.write(out, at + 60, false)?;
        return Ok(());
    }
    Err(Reason::Room.into())
}

// The run of numbers of two bytes from a cursor on, and the cursor past them.
fn halves_at(s: &[u8], from: Cursor) -> Result<([u16; 29], Cursor), Refusal>
    ensures { result ≡ halves_at s.now from.at }
{
    let mut numbers = [0; 29];
    let mut cursor = from;
    for half in &mut numbers {
        let (number, next) = cursor.next(s, false)?;
        *half = number;
        cursor = next;
    }
    Ok((numbers, cursor))
}

fn header_of(signature: u16, n: [u16; 29], pe_pointer: u32) -> DosHeader
    ensures { result ≡ header_of (signature ∷ elements 29 0 n (pe_pointer ∷ [])) }
{
    DosHeader {
        signature,
        bytes_on_last_page: n[0],
        pages_in_file: n[1],
        relocations: n[2],
        size_of_header_in_paragraphs: n[3],
        minimum_extra_paragraphs_needed: n[4],
        maximum_extra_paragraphs_needed: n[5],
        initial_relative_ss: n[6],
        initial_sp: n[7],
        checksum: n[8],
        initial_ip: n[9],
        initial_relative_cs: n[10],
        file_address_of_relocation_table: n[11],
        overlay_number: n[12],
        reserved: [n[13], n[14], n[15], n[16]],
        oem_id: n[17],
        oem_info: n[18],
        reserved2: [
            n[19], n[20], n[21], n[22], n[23], n[24], n[25], n[26], n[27], n[28],
        ],
        pe_pointer,
    }
}

fn put_halves(out: &mut [u8], from: usize, numbers: [u16; 30]) -> Result<(), Refusal>
    requires { from + 60 ≤ length out.old }
    ensures { (result ≡ Ok tt) × (out.new ≡ put out.old from (write_by false (array 30 2 []) numbers)) }
{
    let mut at = from;
    for half in &numbers {
        half.write(out, at, false)?;
        at += 2;
    }
    Ok(())
}

fn halves_of(h: DosHeader) -> [u16; 30]
    ensures { result ≡ take 30 (numbers_of h) }
{
    [
        h.signature,
        h.bytes_on_last_page,
        h.pages_in_file,
        h.relocations,
        h.size_of_header_in_paragraphs,
        h.minimum_extra_paragraphs_needed,
        h.maximum_extra_paragraphs_needed,
        h.initial_relative_ss,
        h.initial_sp,
        h.checksum,
        h.initial_ip,
        h.initial_relative_cs,
        h.file_address_of_relocation_table,
        h.overlay_number,
        h.reserved[0],
        h.reserved[1],
        h.reserved[2],
        h.reserved[3],
        h.oem_id,
        h.oem_info,
        h.reserved2[0],
        h.reserved2[1],
        h.reserved2[2],
        h.reserved2[3],
        h.reserved2[4],
        h.reserved2[5],
        h.reserved2[6],
        h.reserved2[7],
        h.reserved2[8],
        h.reserved2[9],
    ]
}
