// An address to its offset in the file, by the section table.
#![tactic(auto)]

ghost use Rattle.std.specs.Prelude.{◌≡◌, ◌<◌};
ghost use Rattle.pe_mapping.specs.Mapping.{readable_size, holds, first_of, find_offset_of};

use answer::{Reason, Refusal};
use pe_section::SectionTable;

// Where the section table is, how many rows it has, and the file alignment.
#[derive(Clone, Copy, Debug, PartialEq, Eq)]
pub struct Sections {
    pub table: usize,
    pub count: usize,
    pub alignment: u32,
}

const PAGE: u64 = 4096;

// The sections' raw pointers are rounded down to a multiple of this.
const SECTOR: u64 = 512;

// The file offset of an address, by the section table.
pub fn find_offset(file: &[u8], sections: Sections, address: u64) -> Result<u64, Refusal>
    ensures { result ≡ find_offset_of file.now sections address }
{
    if answer::FILE_LIMIT < file.len() || pe_section::LIMIT < sections.count {
        return Err(Reason::Limit.into());
    }
    if !sections.alignment.is_power_of_two() {
        return Err(Reason::NoSection.into());
    }
    first(file, sections, address)
}

// The offset by the first row that holds the address.
fn first(file: &[u8], sections: Sections, address: u64) -> Result<u64, Refusal>
    requires { 0 < sections.alignment }
    ensures { result ≡ first_of sections.count file.now sections.table sections.alignment address }
{
    let mut at = sections.table;
    for _ in 0..sections.count {
        let h = pe_section::read(file, at)?;
        if inside(h, sections.alignment, address) {
            let start = u64::from(h.virtual_address);
            return Ok(u64::from(h.pointer_to_raw_data) + (address - start));
        }
        at += pe_section::SIZE;
    }
    Err(Reason::NoSection.into())
}

// Whether the section holds the address.
fn inside(h: SectionTable, alignment: u32, address: u64) -> bool
    requires { 0 < alignment }
    ensures { result ≡ holds alignment h address }
{
    let start = u64::from(h.virtual_address);
    start <= address && address - start < readable(h, alignment)
}

// The bytes of the section that the file has, as a loader counts them.
fn readable(h: SectionTable, alignment: u32) -> u64
    requires { 0 < alignment }
    ensures { result ≡ readable_size alignment h }
{
    let raw = u64::from(h.size_of_raw_data);
    let pointer = u64::from(h.pointer_to_raw_data);
    let virt = u64::from(h.virtual_size);
    if raw == 0 {
        return 0;
    }
    let end = (pointer + raw).next_multiple_of(alignment.into());
    let kept = (end - pointer / SECTOR * SECTOR).min(raw.next_multiple_of(PAGE));
    if virt == 0 {
        return kept;
    }
    kept.min(virt.next_multiple_of(PAGE))
}
