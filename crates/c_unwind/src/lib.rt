// The C interface of unwind infos and their codes, declared in include/hullsift.h: each function calls a door, stores its values, and returns the
// number of its answer. A refusal sets the values to 0.
#![tactic(auto)]

ghost use Rattle.std.specs.Prelude.{◌≡◌};
ghost use Rattle.answer.specs.Answer.{number, values};
ghost use Rattle.unwind_codes.specs.Answers.{answer_check_info, answer_read_code, count_check_info, count_read_code};
ghost use Rattle.unwind_codes.specs.Codes.{check_info_of, read_code_of};
ghost use Rattle.unwind_info.specs.Answers.{answer_read_info, count_read_info};
ghost use Rattle.unwind_info.specs.Unwind.{read_info_of};
ghost use Rattle.unwind_operation.specs.Names.{name_of};

use unwind_operation::Register;

// The unwind info at an offset of the file. No code is decoded.
#[unsafe(no_mangle)]
pub extern "C" fn hullsift_read_info(file: &[u8], at: usize, out: &mut [u64; 12]) -> u8
    ensures answer { result ≡ number (answer_read_info (read_info_of file.now at)) }
    ensures values { out.new ≡ values count_read_info (answer_read_info (read_info_of file.now at)) }
{
    c_numbers::store(unwind_info::read_info(file, at), out)
}

// The same, with all of its codes decoded, and their number first.
#[unsafe(no_mangle)]
pub extern "C" fn hullsift_check_info(file: &[u8], at: usize, out: &mut [u64; 13]) -> u8
    ensures answer { result ≡ number (answer_check_info (check_info_of file.now at)) }
    ensures values { out.new ≡ values count_check_info (answer_check_info (check_info_of file.now at)) }
{
    c_numbers::store(unwind_codes::check_info(file, at), out)
}

// The code at an index of the unwind info at an offset of the file.
#[unsafe(no_mangle)]
pub extern "C" fn hullsift_read_code(file: &[u8], at: usize, index: usize, out: &mut [u64; 5]) -> u8
    ensures answer { result ≡ number (answer_read_code (read_code_of file.now at index)) }
    ensures values { out.new ≡ values count_read_code (answer_read_code (read_code_of file.now at index)) }
{
    c_numbers::store(unwind_codes::read_code(file, at, index), out)
}

// The name of a register.
#[unsafe(no_mangle)]
pub extern "C" fn hullsift_register_name(number: u8, name: &mut [u8; 6])
    ensures values { name.new ≡ name_of number }
{
    *name = Register(number).name();
}
