// A list of version records, each a row of numbers in a list that the caller lends: first the record's place in the section, then
// its fields in the document's order. A list is followed twice: once to see how many records it has, and once to write them.
#![tactic(auto)]

ghost use Rattle.std.specs.Prelude.{◌≡◌, ◌+◌, ◌*◌, ◌≤◌, suc, length, Ok};
ghost use Rattle.answer.specs.Test.{file_limit};
ghost use Rattle.fields.specs.Field.{put};
ghost use Rattle.layout.specs.Layout.{size};
ghost use Rattle.version_record.specs.Record.{layout, onward_at_of};
ghost use Rattle.version_list.specs.List.{row_at, entries_from, flat, total_of, counted_of, out_of, list_of, list_out};
ghost use Rattle.version_list.specs.Place.{place_after};

use answer::{Reason, Refusal};
use version_record::{Onward, VersionRecord};
use version_section::CountEntries;

// How many records a list may state.
pub const RECORD_LIMIT: usize = 65535;

// The records from `at` of the section of `len` bytes from `start`, at most `stated` of them.
pub fn list(
    file: &[u8],
    start: usize,
    len: usize,
    stated: usize,
    at: usize,
    big: bool,
    kind: VersionRecord,
    out: &mut [u32],
) -> Result<CountEntries, Refusal>
    ensures { (result ≡ list_of kind big file.now start len stated at out.old)
        × (out.new ≡ list_out kind big file.now start len stated at out.old) }
{
    if answer::FILE_LIMIT < file.len() || RECORD_LIMIT < stated {
        return Err(Reason::Limit.into());
    }
    let section = version_section::section(file, start, len)?;
    list_in(section, stated, at, big, kind, out)
}

fn list_in(
    section: &[u8],
    stated: usize,
    at: usize,
    big: bool,
    kind: VersionRecord,
    out: &mut [u32],
) -> Result<CountEntries, Refusal>
    requires { (length section.now ≤ file_limit) × (stated ≤ 65535) }
    ensures { (result ≡ counted_of (entries_from kind big section.now stated at) out.old)
        × (out.new ≡ out_of (entries_from kind big section.now stated at) out.old) }
{
    let count = measure(section, stated, at, big, kind);
    let entries = count.entries();
    let columns = version_record::fields_of(kind) + 1;
    if out.len() < entries * columns {
        return Err(Reason::Room.into());
    }
    fill(section, entries, at, big, kind, out)?;
    Ok(count)
}

// How many records there are, and whether the list ends with them or stops at bytes that are none.
fn measure(section: &[u8], stated: usize, at: usize, big: bool, kind: VersionRecord) -> CountEntries
    requires { length section.now ≤ file_limit }
    ensures { result ≡ total_of (entries_from kind big section.now stated at) }
{
    let mut place = at;
    for entries in 0..stated {
        match version_record::onward_at(section, place, big, kind) {
            Onward::Next(n) => place += n as usize,
            Onward::Last => return CountEntries::Whole(entries + 1),
            Onward::Bad => return CountEntries::Cut(entries),
        }
    }
    CountEntries::Whole(stated)
}

// Writes the rows of a list that has as many records as it states. Each record is whole, and there is room: it is not refused.
fn fill(
    section: &[u8],
    entries: usize,
    at: usize,
    big: bool,
    kind: VersionRecord,
    out: &mut [u32],
) -> Result<(), Refusal>
    requires { (length section.now ≤ file_limit) × (length (entries_from kind big section.now entries at).rows ≡ entries)
        × (entries * suc (length (layout kind)) ≤ length out.old) }
    ensures { (result ≡ Ok tt) × (out.new ≡ put out.old 0 (flat (entries_from kind big section.now entries at).rows)) }
{
    let columns = version_record::fields_of(kind) + 1;
    let mut place = at;
    let mut base = 0;
    for _ in 0..entries {
        put_row(section, place, big, kind, out, base)?;
        place = place_after(section, place, big, kind);
        base += columns;
    }
    Ok(())
}

fn put_row(
    section: &[u8],
    at: usize,
    big: bool,
    kind: VersionRecord,
    out: &mut [u32],
    base: usize,
) -> Result<(), Refusal>
    requires { (length section.now ≤ file_limit) × (at + size (layout kind) ≤ length section.now)
        × (base + suc (length (layout kind)) ≤ length out.old) }
    ensures { (result ≡ Ok tt) × (out.new ≡ put out.old base (row_at kind big section.now at)) }
{
    out[base] = at as u32;
    version_record::write(section, at, big, kind, out, base + 1)
}

// Where the record after the one at `at` is, or `at` where there is none.
fn place_after(section: &[u8], at: usize, big: bool, kind: VersionRecord) -> usize
    requires { length section.now ≤ file_limit }
    ensures { result ≡ place_after at (onward_at_of kind big section.now at) }
{
    match version_record::onward_at(section, at, big, kind) {
        Onward::Next(n) => at + n as usize,
        Onward::Last | Onward::Bad => at,
    }
}
