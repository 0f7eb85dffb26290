// The C interface of C scope tables, declared in include/hullsift.h: each function calls a door, stores its values, and returns the number of its
// answer. A refusal sets the values to 0 and leaves lent bytes as they were.
#![tactic(auto)]

ghost use Rattle.std.specs.Prelude.{◌≡◌};
ghost use Rattle.answer.specs.Answer.{number, values};
ghost use Rattle.fields.specs.Answers.{answer_write_bytes};
ghost use Rattle.fields.specs.Field.{write_of};
ghost use Rattle.scope_table.specs.Answers.{answer_count_scopes, answer_read_scope_table_entry, count_count_scopes, count_read_scope_table_entry};
ghost use Rattle.scope_table.specs.Handler.{count_at_of, entry_at_of};
ghost use Rattle.scope_table.specs.Scope.{count_in_of, entry_in_of, read_of, write_out};

use scope_table::ScopeTableEntry;

// How many entries the table in a handler's data has.
#[unsafe(no_mangle)]
pub extern "C" fn hullsift_count_scopes_in(data: &[u8], out: &mut [u64; 1]) -> u8
    ensures answer { result ≡ number (answer_count_scopes (count_in_of «data».now)) }
    ensures values { out.new ≡ values count_count_scopes (answer_count_scopes (count_in_of «data».now)) }
{
    c_numbers::store(scope_table::count_in(data), out)
}

// The entry at an index of that table.
#[unsafe(no_mangle)]
pub extern "C" fn hullsift_scope_in(data: &[u8], index: usize, out: &mut [u64; 4]) -> u8
    ensures answer { result ≡ number (answer_read_scope_table_entry (entry_in_of «data».now index)) }
    ensures values { out.new ≡ values count_read_scope_table_entry (answer_read_scope_table_entry (entry_in_of «data».now index)) }
{
    c_numbers::store(scope_table::entry_in(data, index), out)
}

// How many entries the table of the unwind info at an offset of the file has.
#[unsafe(no_mangle)]
pub extern "C" fn hullsift_count_scopes_at(file: &[u8], at: usize, out: &mut [u64; 1]) -> u8
    ensures answer { result ≡ number (answer_count_scopes (count_at_of file.now at)) }
    ensures values { out.new ≡ values count_count_scopes (answer_count_scopes (count_at_of file.now at)) }
{
    c_numbers::store(scope_table::count_at(file, at), out)
}

// The entry at an index of that table.
#[unsafe(no_mangle)]
pub extern "C" fn hullsift_scope_at(file: &[u8], at: usize, index: usize, out: &mut [u64; 4]) -> u8
    ensures answer { result ≡ number (answer_read_scope_table_entry (entry_at_of file.now at index)) }
    ensures values { out.new ≡ values count_read_scope_table_entry (answer_read_scope_table_entry (entry_at_of file.now at index)) }
{
    c_numbers::store(scope_table::entry_at(file, at, index), out)
}

// The entry at `at`.
#[unsafe(no_mangle)]
pub extern "C" fn hullsift_read_scope(bytes: &[u8], at: usize, out: &mut [u64; 4]) -> u8
    ensures answer { result ≡ number (answer_read_scope_table_entry (read_of bytes.now at)) }
    ensures values { out.new ≡ values count_read_scope_table_entry (answer_read_scope_table_entry (read_of bytes.now at)) }
{
    c_numbers::store(scope_table::read(bytes, at), out)
}

// Writes an entry at `at`.
#[unsafe(no_mangle)]
pub extern "C" fn hullsift_write_scope(
    bytes: &mut [u8],
    at: usize,
    begin: u32,
    end: u32,
    handler: u32,
    target: u32,
) -> u8
    ensures answer { result ≡ number (answer_write_bytes (write_of 16 bytes.old at)) }
    ensures lent { bytes.new ≡ write_out bytes.old at (record { begin = begin; end = end; handler = handler; target = target }) }
{
    let entry = ScopeTableEntry {
        begin,
        end,
        handler,
        target,
    };
    c_numbers::number(scope_table::write(bytes, at, entry))
}
