// The C interface of exception data, its records and lookup, declared in include/hullsift.h: each function calls a door, stores its values, and
// returns the number of its answer. A refusal sets the values to 0 and leaves lent bytes as they were.
#![tactic(auto)]

ghost use Rattle.std.specs.Prelude.{◌≡◌, get_or, take};
ghost use Rattle.answer.specs.Answer.{number, values};
ghost use Rattle.c_exceptions.specs.Stated.{Reads, check_and_find_by, find_function_by, get_function_by};
ghost use Rattle.exception_data.specs.Answers.{answer_open_exception_data, count_open_exception_data};
ghost use Rattle.exception_data.specs.Exception.{open_of};
ghost use Rattle.fields.specs.Answers.{answer_write_bytes};
ghost use Rattle.fields.specs.Field.{write_of};
ghost use Rattle.runtime_function.specs.Answers.{answer_read_runtime_function, count_read_runtime_function};
ghost use Rattle.runtime_function.specs.RuntimeFunction.{read_of, write_out};
ghost use Rattle.runtime_lookup.specs.Answers.{answer_check_and_find, count_check_and_find};
ghost use Rattle.runtime_lookup.specs.Lookup.{CountedReads, uncounted};
ghost use Rattle.runtime_table.specs.Answers.{answer_check_table};
ghost use Rattle.runtime_table.specs.Check.{check_of};

use answer::Refusal;
use runtime_function::RuntimeFunction;
use runtime_lookup::{Found, Holder};

// The exception data of an image, all of its checks made.
#[unsafe(no_mangle)]
pub extern "C" fn hullsift_exceptions_open(file: &[u8], out: &mut [u64; 6]) -> u8
    ensures answer { result ≡ number (answer_open_exception_data (open_of file.now)) }
    ensures values { out.new ≡ values count_open_exception_data (answer_open_exception_data (open_of file.now)) }
{
    c_numbers::store(exception_data::open(file), out)
}

// The runtime record at `at`.
#[unsafe(no_mangle)]
pub extern "C" fn hullsift_read_runtime_function(bytes: &[u8], at: usize, out: &mut [u64; 3]) -> u8
    ensures answer { result ≡ number (answer_read_runtime_function (read_of bytes.now at)) }
    ensures values { out.new ≡ values count_read_runtime_function (answer_read_runtime_function (read_of bytes.now at)) }
{
    c_numbers::store(runtime_function::read(bytes, at), out)
}

// Writes a runtime record at `at`.
#[unsafe(no_mangle)]
pub extern "C" fn hullsift_write_runtime_function(
    bytes: &mut [u8],
    at: usize,
    begin: u32,
    end: u32,
    unwind: u32,
) -> u8
    ensures answer { result ≡ number (answer_write_bytes (write_of 12 bytes.old at)) }
    ensures lent { bytes.new ≡ write_out bytes.old at (record { begin = begin; end = end; unwind = unwind }) }
{
    c_numbers::number(runtime_function::write(bytes, at, RuntimeFunction { begin, end, unwind }))
}

// The record at an index of the table.
#[unsafe(no_mangle)]
pub extern "C" fn hullsift_get_function(
    file: &[u8],
    opened: &[u64; 6],
    index: usize,
    out: &mut [u64; 3],
) -> u8
    ensures answer { result ≡ number (answer_read_runtime_function (get_function_by file.now opened.now index)) }
    ensures values { out.new
        ≡ values count_read_runtime_function (answer_read_runtime_function (get_function_by file.now opened.now index)) }
{
    c_numbers::store(get_function(file, opened, index), out)
}

// Whether a table lies in the file and is in order.
#[unsafe(no_mangle)]
pub extern "C" fn hullsift_check_table(file: &[u8], table: usize, count: usize) -> u8
    ensures answer { result ≡ number (answer_check_table (check_of file.now table count)) }
{
    c_numbers::number(runtime_table::check(file, table, count))
}

// The record that holds an address, its index, and how many records were read.
#[unsafe(no_mangle)]
pub extern "C" fn hullsift_find_function(
    file: &[u8],
    opened: &[u64; 6],
    address: u32,
    out: &mut [u64; 5],
) -> u8
    ensures answer { result ≡ number (answer_check_and_find (find_function_by file.now opened.now address)) }
    ensures values { take 4 out.new
        ≡ values count_check_and_find (answer_check_and_find (find_function_by file.now opened.now address)) }
    ensures reads { Reads (find_function_by file.now opened.now address) (get_or out.new 4 0) }
{
    c_numbers::store(find_function(file, opened, address), out)
}

// The same of a table that is checked first.
#[unsafe(no_mangle)]
pub extern "C" fn hullsift_check_and_find(
    file: &[u8],
    opened: &[u64; 6],
    address: u32,
    out: &mut [u64; 4],
) -> u8
    ensures answer { result ≡ number (answer_check_and_find (check_and_find_by file.now opened.now address)) }
    ensures values { out.new
        ≡ values count_check_and_find (answer_check_and_find (check_and_find_by file.now opened.now address)) }
{
    c_numbers::store(check_and_find(file, opened, address), out)
}

fn get_function(file: &[u8], numbers: &[u64; 6], index: usize) -> Result<RuntimeFunction, Refusal>
    ensures { result ≡ get_function_by file.now numbers.now index }
{
    exception_data::get_function(file, c_opened::read_opened(numbers)?, index)
}

fn find_function(file: &[u8], numbers: &[u64; 6], address: u32) -> Result<Found, Refusal>
    ensures { (uncounted result ≡ find_function_by file.now numbers.now address) × CountedReads result }
{
    runtime_lookup::find_function(file, c_opened::read_opened(numbers)?, address)
}

fn check_and_find(file: &[u8], numbers: &[u64; 6], address: u32) -> Result<Holder, Refusal>
    ensures { result ≡ check_and_find_by file.now numbers.now address }
{
    runtime_lookup::check_and_find(file, c_opened::read_opened(numbers)?, address)
}
