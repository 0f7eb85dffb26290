// The four records of the version sections: their numbers, and what is at a place of a list of them.
#![tactic(auto)]

ghost use Rattle.std.specs.Prelude.{◌≡◌, ◌⊎◌, ◌+◌, ◌≤◌, length, ltb, Ok, Err};
ghost use Rattle.fields.specs.Number.{number_at};
ghost use Rattle.fields.specs.Field.{read_of};
ghost use Rattle.layout.specs.Layout.{size, numbers_at};
ghost use Rattle.version_record.specs.Record.{layout, fields_of, aux_inside, onward_at_of, write_of, write_out};

use answer::{Reason, Refusal};
use fields::Unsigned;

#[derive(Clone, Copy, Debug, PartialEq, Eq)]
pub enum VersionRecord {
    Verdef,
    Verdaux,
    Verneed,
    Vernaux,
}

// What is at a place of a list.
#[derive(Clone, Copy, Debug, PartialEq, Eq)]
pub enum Onward {
    // A record, and how far from its start the next one is.
    Next(u32),
    // A record that has no next.
    Last,
    // No whole record, or one whose first auxiliary would be past the section.
    Bad,
}

// How many fields a record has.
pub fn fields_of(kind: VersionRecord) -> usize
    ensures { result ≡ fields_of kind }
{
    widths(kind).len()
}

pub fn onward_at(section: &[u8], at: usize, big: bool, kind: VersionRecord) -> Onward
    ensures { result ≡ onward_at_of kind big section.now at }
{
    let size = size_of(kind);
    if !fields::fits(section.len(), at, size) || !aux_inside(section, at, big, kind) {
        return Onward::Bad;
    }
    // The offset of the next record is the last field of each.
    match u32::read(section, at + (size - 4), big) {
        Ok(0) => Onward::Last,
        Ok(next) => Onward::Next(next),
        Err(_) => Onward::Bad,
    }
}

// Writes the numbers of the record at `at` into `out` from `base`.
pub fn write(
    section: &[u8],
    at: usize,
    big: bool,
    kind: VersionRecord,
    out: &mut [u32],
    base: usize,
) -> Result<(), Refusal>
    ensures { (result ≡ write_of kind section.now at out.old base)
        × (out.new ≡ write_out kind big section.now at out.old base) }
{
    let size = size_of(kind);
    if !fields::fits(section.len(), at, size) {
        return Err(answer::cut(at, size));
    }
    let widths = widths(kind);
    if !fields::fits(out.len(), base, widths.len()) {
        return Err(Reason::Room.into());
    }
    let mut next = at;
    for (i, width) in widths.iter().enumerate() {
        out[base + i] = number(section, next, *width, big)?;
        next += *width;
    }
    Ok(())
}

// The widths of the fields, in the document's order.
fn widths(kind: VersionRecord) -> &'static [usize]
    ensures { result.now ≡ layout kind }
{
    match kind {
        VersionRecord::Verdef => &[2, 2, 2, 2, 4, 4, 4],
        VersionRecord::Verdaux => &[4, 4],
        VersionRecord::Verneed => &[2, 2, 4, 4, 4],
        VersionRecord::Vernaux => &[4, 2, 2, 4, 4],
    }
}

fn size_of(kind: VersionRecord) -> usize
    ensures { result ≡ size (layout kind) }
{
    match kind {
        VersionRecord::Verdef => 20,
        VersionRecord::Verdaux => 8,
        VersionRecord::Verneed => 16,
        VersionRecord::Vernaux => 16,
    }
}

// Whether the first auxiliary of the record at `at`, if it is of a kind that has some, is before the section's end.
fn aux_inside(section: &[u8], at: usize, big: bool, kind: VersionRecord) -> bool
    requires { at + size (layout kind) ≤ length section.now }
    ensures { result ≡ aux_inside kind (length section.now) at (numbers_at big (layout kind) section.now at) }
{
    match kind {
        VersionRecord::Verdef => inside(section, at, at + 12, big),
        VersionRecord::Verneed => inside(section, at, at + 8, big),
        VersionRecord::Verdaux | VersionRecord::Vernaux => true,
    }
}

// Whether `at` with the number at `from` added is a place of the section.
fn inside(section: &[u8], at: usize, from: usize, big: bool) -> bool
    requires { (at ≤ length section.now) × (from + 4 ≤ length section.now) }
    ensures { result ≡ ltb (at + number_at big 4 section.now from) (length section.now) }
{
    match u32::read(section, from, big) {
        Ok(offset) => (offset as usize) < section.len() - at,
        Err(_) => false,
    }
}

// The number at `at`, of a field of two or four bytes.
fn number(section: &[u8], at: usize, width: usize, big: bool) -> Result<u32, Refusal>
    requires { (width ≡ 2) ⊎ (width ≡ 4) }
    ensures { result ≡ read_of Ok Err big width section.now at }
{
    if width == 2 {
        return Ok(u16::read(section, at, big)?.into());
    }
    u32::read(section, at, big)
}
