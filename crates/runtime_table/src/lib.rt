// A table of runtime records in a file: the record at an index, whether the table lies in the file, and whether it is in order.
#![tactic(auto)]

ghost use Rattle.std.specs.Prelude.{◌≡◌, true, length};
ghost use Rattle.runtime_table.specs.Table.{table_of, get_entry_of, lies_of, ordered};
ghost use Rattle.runtime_table.specs.Check.{check_of};

use answer::{Reason, Refusal};
use runtime_function::RuntimeFunction;

// Whether the table at `table` lies in the file and its `count` records are in order.
pub fn check(file: &[u8], table: usize, count: usize) -> Result<(), Refusal>
    ensures { result ≡ check_of file.now table count }
{
    if answer::FILE_LIMIT < file.len() {
        return Err(Reason::Limit.into());
    }
    if lies(file.len(), table, count) {
        if in_order(file, table, count) {
            return Ok(());
        }
        return Err(Reason::Order.into());
    }
    // Records of more than 64 bits together are in no file.
    if usize::MAX / runtime_function::SIZE < count {
        return Err(answer::beyond());
    }
    Err(answer::cut(table, runtime_function::SIZE * count))
}

// The record at an index of the table at `table`, however many records it has.
pub fn get_entry(s: &[u8], table: usize, index: usize) -> Result<RuntimeFunction, Refusal>
    ensures { result ≡ get_entry_of s.now table index }
{
    // A record that begins past 64 bits is in no file.
    if (usize::MAX - table) / runtime_function::SIZE < index {
        return Err(answer::beyond());
    }
    runtime_function::read(s, table + runtime_function::SIZE * index)
}

// Whether `count` records from `table` lie within `len` bytes.
pub fn lies(len: usize, table: usize, count: usize) -> bool
    ensures { result ≡ lies_of len table count }
{
    count == 0
        || count <= len / runtime_function::SIZE
            && fields::fits(len, table, runtime_function::SIZE * count)
}

// The records are passed in table order, each with the end of the one before it.
fn in_order(file: &[u8], table: usize, count: usize) -> bool
    requires { lies_of (length file.now) table count ≡ true }
    ensures { result ≡ ordered (table_of file.now table) count }
{
    let mut end = 0;
    for index in 0..count {
        let Ok(e) = get_entry(file, table, index) else {
            return false;
        };
        if e.begin < end || e.end <= e.begin {
            return false;
        }
        end = e.end;
    }
    true
}
