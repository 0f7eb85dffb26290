// The runtime record that holds an address, by halving.
#![tactic(auto)]

ghost use Rattle.std.specs.Prelude.{◌≡◌, true, false, ◌+◌, ◌≤◌, length};
ghost use Rattle.answer.specs.Test.{file_limit};
ghost use Rattle.fields.specs.Number.{number_at};
ghost use Rattle.runtime_table.specs.Table.{table_of, lies_of};
ghost use Rattle.runtime_lookup.specs.Answers.{holder_numbers, found_numbers};
ghost use Rattle.runtime_lookup.specs.Halving.{halving};
ghost use Rattle.runtime_lookup.specs.Lookup.{sought_at, find_function_of, check_and_find_of, uncounted, CountedReads};
ghost use Rattle.runtime_lookup.specs.Code.{search_of, Searches};

use answer::{Numbers, Reason, Refusal};
use exception_data::ExceptionData;
use runtime_function::RuntimeFunction;

// The record that holds an address, and its index.
#[derive(Clone, Copy, Debug, PartialEq, Eq)]
pub struct Holder {
    pub function: RuntimeFunction,
    pub index: usize,
}

impl Numbers<4> for Holder {
    ghost numbers = { holder_numbers };

    fn numbers(self) -> [u64; 4] {
        [
            self.function.begin.into(),
            self.function.end.into(),
            self.function.unwind.into(),
            self.index as u64,
        ]
    }
}

// With the number of records that were read.
#[derive(Clone, Copy, Debug, PartialEq, Eq)]
pub struct Found {
    pub holder: Holder,
    pub reads: u8,
}

impl Numbers<5> for Found {
    ghost numbers = { found_numbers };

    fn numbers(self) -> [u64; 5] {
        [
            self.holder.function.begin.into(),
            self.holder.function.end.into(),
            self.holder.function.unwind.into(),
            self.holder.index as u64,
            self.reads.into(),
        ]
    }
}

// A search: the index at which it stopped, unless no record was left, and how many records it read.
#[derive(Clone, Copy)]
struct Search {
    end: Option<usize>,
    reads: u8,
}

// The record that halving finds in the opened table.
pub fn find_function(file: &[u8], opened: ExceptionData, address: u32) -> Result<Found, Refusal>
    ensures { (uncounted result ≡ find_function_of file.now opened address) × CountedReads result }
{
    if answer::FILE_LIMIT < file.len() {
        return Err(Reason::Limit.into());
    }
    let search = search_table(file, opened.table, opened.count, address);
    let Some(index) = search.end else {
        return Err(Reason::NotFound.into());
    };
    let holder = sought_at(file, opened.table, index)?;
    Ok(Found {
        holder,
        reads: search.reads,
    })
}

// The same of a table that is checked first.
#[tactic(auto, unfolding(crate::specs::Lookup::check_and_find_of))]
pub fn check_and_find(file: &[u8], opened: ExceptionData, address: u32) -> Result<Holder, Refusal>
    ensures { result ≡ check_and_find_of file.now opened address }
{
    runtime_table::check(file, opened.table, opened.count)?;
    let found = find_function(file, opened, address)?;
    Ok(found.holder)
}

// The record at which a search stopped.
#[tactic(auto, unfolding(crate::specs::Lookup::sought_at))]
fn sought_at(file: &[u8], table: usize, index: usize) -> Result<Holder, Refusal>
    ensures { result ≡ sought_at file.now table index }
{
    let function = runtime_table::get_entry(file, table, index)?;
    Ok(Holder { function, index })
}

// The search of every lookup. A faster one takes the place of `inside`, or of all of it.
fn search_table(file: &[u8], table: usize, count: usize, address: u32) -> Search
    requires { length file.now ≤ file_limit }
    ensures { Searches file.now table count address result }
{
    if runtime_table::lies(file.len(), table, count) {
        return inside(file, table, count, address);
    }
    tested(file, table, count, address)
}

// Halving on a table that lies in the file: no read is tested.
fn inside(file: &[u8], table: usize, count: usize, address: u32) -> Search
    requires file_within { length file.now ≤ file_limit }
    requires table_within { lies_of (length file.now) table count ≡ true }
    ensures { result ≡ search_of (halving (table_of file.now table) address count) }
{
    let mut low = 0;
    let mut high = count;
    let mut reads = 0;
    while low < high {
        let middle = (low + high) / 2;
        let at = table + runtime_function::SIZE * middle;
        let begin = u32_at(file, at);
        let end = u32_at(file, at + 4);
        reads += 1;
        if address < begin {
            high = middle;
        } else if address < end {
            return Search {
                end: Some(middle),
                reads,
            };
        } else {
            low = middle + 1;
        }
    }
    Search { end: None, reads }
}

// Halving on any bytes and numbers: each record is tested as it is read.
fn tested(file: &[u8], table: usize, count: usize, address: u32) -> Search
    requires { length file.now ≤ file_limit }
    ensures { result ≡ search_of (halving (table_of file.now table) address count) }
{
    let mut low = 0;
    let mut high = count;
    let mut reads = 0;
    while low < high {
        let index = low + (high - low) / 2;
        let Ok(e) = runtime_table::get_entry(file, table, index) else {
            return Search {
                end: Some(index),
                reads,
            };
        };
        reads += 1;
        if address < e.begin {
            high = index;
        } else if address < e.end {
            return Search {
                end: Some(index),
                reads,
            };
        } else {
            low = index + 1;
        }
    }
    Search { end: None, reads }
}

fn u32_at(s: &[u8], at: usize) -> u32
    requires { at + 4 ≤ length s.now }
    ensures { result ≡ number_at false 4 s.now at }
{
    u32::from_le_bytes([s[at], s[at + 1], s[at + 2], s[at + 3]])
}
