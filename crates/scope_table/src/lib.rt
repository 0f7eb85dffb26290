// C scope tables: the one in the data of an exception handler, which is lent by itself or found by its unwind info in a file; and its
// entries, which are written too.
#![tactic(auto)]

ghost use Rattle.std.specs.Prelude.{◌≡◌};
ghost use Rattle.fields.specs.Field.{write_of};
ghost use Rattle.scope_table.specs.Scope.{read_of, write_out, count_from, entry_from, count_in_of, entry_in_of};
ghost use Rattle.scope_table.specs.Handler.{table_at, count_at_of, entry_at_of};
ghost use Rattle.scope_table.specs.Answers.{numbers_of};

use answer::{Numbers, Reason, Refusal};
use cursor::Cursor;
use fields::Unsigned;
use unwind_info::{Follows, HandlerKind, UnwindHandler};

// The bytes of an entry.
pub const SIZE: usize = 16;

// The bytes of the count before them.
pub const HEAD: usize = 4;

#[derive(Clone, Copy, Debug, PartialEq, Eq)]
pub struct ScopeTableEntry {
    pub begin: u32,
    pub end: u32,
    pub handler: u32,
    pub target: u32,
}

impl Numbers<4> for ScopeTableEntry {
    ghost numbers = { numbers_of };

    fn numbers(self) -> [u64; 4] {
        [
            self.begin.into(),
            self.end.into(),
            self.handler.into(),
            self.target.into(),
        ]
    }
}

// How many entries the table in the data of a handler has.
pub fn count_in(part: &[u8]) -> Result<u32, Refusal>
    ensures { result ≡ count_in_of part.now }
{
    count_from(part, 0)
}

// The entry at an index of the table in the data of a handler.
pub fn entry_in(part: &[u8], index: usize) -> Result<ScopeTableEntry, Refusal>
    ensures { result ≡ entry_in_of part.now index }
{
    entry_from(part, 0, index)
}

// How many entries the table of the unwind info at an offset of the file has.
#[tactic(auto, unfolding(crate::specs::Handler::count_at_of))]
pub fn count_at(file: &[u8], at: usize) -> Result<u32, Refusal>
    ensures { result ≡ count_at_of file.now at }
{
    let start = handler_data(file, at)?;
    count_from(file, start)
}

// The entry at an index of the table of the unwind info at an offset of the file.
#[tactic(auto, unfolding(crate::specs::Handler::entry_at_of))]
pub fn entry_at(file: &[u8], at: usize, index: usize) -> Result<ScopeTableEntry, Refusal>
    ensures { result ≡ entry_at_of file.now at index }
{
    let start = handler_data(file, at)?;
    entry_from(file, start, index)
}

pub fn read(s: &[u8], at: usize) -> Result<ScopeTableEntry, Refusal>
    ensures { result ≡ read_of s.now at }
{
    let cursor = Cursor::new(at);
    let (begin, cursor) = cursor.next(s, false)?;
    let (end, cursor) = cursor.next(s, false)?;
    let (handler, cursor) = cursor.next(s, false)?;
    let (target, _) = cursor.next(s, false)?;
    Ok(ScopeTableEntry {
        begin,
        end,
        handler,
        target,
    })
}

pub fn write(out: &mut [u8], at: usize, e: ScopeTableEntry) -> Result<(), Refusal>
    ensures { (result ≡ write_of 16 out.old at) × (out.new ≡ write_out out.old at e) }
{
    if fields::fits(out.len(), at, SIZE) {
        e.begin.write(out, at, false)?;
        e.end.write(out, at + 4, false)?;
        e.handler.write(out, at + 8, false)?;
        e.target.write(out, at + 12, false)?;
        return Ok(());
    }
    Err(Reason::Room.into())
}

// How many entries the table at `start` has, whose data runs to the end of the bytes.
fn count_from(s: &[u8], start: usize) -> Result<u32, Refusal>
    ensures { result ≡ count_from s.now start }
{
    let cursor = Cursor::new(start);
    let (count, cursor) = cursor.next::<u32>(s, false)?;
    if count as usize <= (s.len() - cursor.at) / SIZE {
        return Ok(count);
    }
    Err(Reason::Contradiction.into())
}

fn entry_from(s: &[u8], start: usize, index: usize) -> Result<ScopeTableEntry, Refusal>
    ensures { result ≡ entry_from s.now start index }
{
    let count = count_from(s, start)?;
    if index < count as usize {
        return read(s, start + HEAD + SIZE * index);
    }
    Err(Reason::NotFound.into())
}

// Where the data of an exception handler starts in the file: it runs to the end of the file.
#[tactic(auto, unfolding(crate::specs::Handler::table_at))]
fn handler_data(file: &[u8], at: usize) -> Result<usize, Refusal>
    ensures { result ≡ table_at file.now at }
{
    match unwind_info::read_info(file, at)?.follows {
        Follows::Handler(
            UnwindHandler {
                kind: HandlerKind::Exception,
                start,
                ..
            },
        ) => Ok(start),
        _ => Err(Reason::NotFound.into()),
    }
}
