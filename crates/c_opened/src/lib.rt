// Opened exception data as a C caller states it: six numbers, whatever they are.
#![tactic(auto)]

ghost use Rattle.std.specs.Prelude.{◌≡◌};
ghost use Rattle.c_opened.specs.Opened.{read_opened_of};

use answer::{Reason, Refusal};
use exception_data::{ExceptionData, RecordForm};
use pe_mapping::Sections;

const X64: u64 = 0x8664;

// The machine, the offset of the table, the number of its records, and then what mapping needs.
pub fn read_opened(numbers: &[u64; 6]) -> Result<ExceptionData, Refusal>
    ensures { result ≡ read_opened_of numbers.now }
{
    let [
        machine,
        table,
        count,
        section_table,
        section_count,
        alignment,
    ] = *numbers;
    if machine != X64 {
        return Err(Reason::Machine.into());
    }
    Ok(ExceptionData {
        form: RecordForm::X64,
        table: table as usize,
        count: count as usize,
        sections: Sections {
            table: section_table as usize,
            count: section_count as usize,
            alignment: c_sections::small(alignment),
        },
    })
}
