// The exception data of an image: opening it, and the record at an index of its table.
#![tactic(auto)]

ghost use Rattle.std.specs.Prelude.{◌≡◌};
ghost use Rattle.exception_data.specs.Answers.{machine_of, numbers_of};
ghost use Rattle.exception_data.specs.Exception.{empty_of, open_of, get_function_of};

use answer::{Numbers, Reason, Refusal};
use pe_mapping::Sections;
use pe_optional::DataDirectory;
use runtime_function::RuntimeFunction;

const X64: u16 = 0x8664;

// The form of a table's records.
#[derive(Clone, Copy, Debug, PartialEq, Eq)]
pub enum RecordForm {
    X64,
}

// The number of its machine.
impl From<RecordForm> for u64 {
    ghost from_gives = { λ form n. n ≡ machine_of form };

    fn from(form: RecordForm) -> u64 {
        match form {
            RecordForm::X64 => X64.into(),
        }
    }
}

// An opened table: where it is, how many records it has, and what mapping needs.
#[derive(Clone, Copy, Debug, PartialEq, Eq)]
pub struct ExceptionData {
    pub form: RecordForm,
    pub table: usize,
    pub count: usize,
    pub sections: Sections,
}

impl Numbers<6> for ExceptionData {
    ghost numbers = { numbers_of };

    fn numbers(self) -> [u64; 6] {
        [
            self.form.into(),
            self.table as u64,
            self.count as u64,
            self.sections.table as u64,
            self.sections.count as u64,
            self.sections.alignment.into(),
        ]
    }
}

pub fn open(file: &[u8]) -> Result<ExceptionData, Refusal>
    ensures { result ≡ open_of file.now }
{
    let h = pe_header::open(file)?;
    if h.machine != X64 {
        return Err(Reason::Machine.into());
    }
    let Some(d) = h.exceptions else {
        return Err(Reason::NotFound.into());
    };
    if is_empty(d) {
        return Err(Reason::NotFound.into());
    }
    let size = d.size as usize;
    if size % runtime_function::SIZE != 0 {
        return Err(Reason::Contradiction.into());
    }
    let sections = Sections {
        table: h.section_table,
        count: h.number_of_sections,
        alignment: h.file_alignment,
    };
    let offset = pe_mapping::find_offset(file, sections, d.virtual_address.into())?;
    if offset % 4 != 0 {
        return Err(Reason::NoSection.into());
    }
    let table = offset as usize;
    let count = size / runtime_function::SIZE;
    runtime_table::check(file, table, count)?;
    Ok(ExceptionData {
        form: RecordForm::X64,
        table,
        count,
        sections,
    })
}

// The record at an index of an opened table.
pub fn get_function(
    file: &[u8],
    opened: ExceptionData,
    index: usize,
) -> Result<RuntimeFunction, Refusal>
    ensures { result ≡ get_function_of file.now opened index }
{
    if answer::FILE_LIMIT < file.len() {
        return Err(Reason::Limit.into());
    }
    if index < opened.count {
        return runtime_table::get_entry(file, opened.table, index);
    }
    Err(Reason::NotFound.into())
}

// Whether the directory's address and size are both 0.
fn is_empty(d: DataDirectory) -> bool
    ensures { result ≡ empty_of d }
{
    d.virtual_address == 0 && d.size == 0
}
