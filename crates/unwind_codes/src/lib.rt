// The codes of an unwind info, decoded in array order: how many there are, and the one at an index. They are walked in the lent bytes.
#![tactic(auto)]

ghost use Rattle.std.specs.Prelude.{◌≡◌, ◌+◌, ◌*◌, ◌≤◌, length};
ghost use Rattle.unwind_codes.specs.Answers.{checked_numbers};
ghost use Rattle.unwind_codes.specs.Codes.{codes_at, nth_of, codes_of, check_info_of, read_code_of};
ghost use Rattle.unwind_codes.specs.Code.{count_in, nth_in};

use answer::{Numbers, Reason, Refusal};
use unwind_info::{UnwindHeader, UnwindInfo};
use unwind_operation::{Register, UnwindCode};

#[derive(Clone, Copy, Debug, PartialEq, Eq)]
pub struct CheckedInfo {
    pub info: UnwindInfo,
    // How many operations its slots hold.
    pub codes: usize,
}

impl Numbers<13> for CheckedInfo {
    ghost numbers = { checked_numbers };

    fn numbers(self) -> [u64; 13] {
        let n = self.info.numbers();
        [
            self.codes as u64,
            n[0],
            n[1],
            n[2],
            n[3],
            n[4],
            n[5],
            n[6],
            n[7],
            n[8],
            n[9],
            n[10],
            n[11],
        ]
    }
}

// The unwind info at an offset of the file, all of whose codes are decoded, and their number.
pub fn check_info(file: &[u8], at: usize) -> Result<CheckedInfo, Refusal>
    ensures { result ≡ check_info_of file.now at }
{
    if answer::FILE_LIMIT < file.len() {
        return Err(Reason::Limit.into());
    }
    let header = unwind_info::read_header(file, at)?;
    let codes = count(file, header)?;
    let follows = unwind_info::read_follows(file, header.follows_at, header.flags)?;
    Ok(CheckedInfo {
        info: UnwindInfo { header, follows },
        codes,
    })
}

// The operation at an index of the unwind info at an offset of the file. Those after it are not decoded.
pub fn read_code(file: &[u8], at: usize, index: usize) -> Result<UnwindCode, Refusal>
    ensures { result ≡ read_code_of file.now at index }
{
    if answer::FILE_LIMIT < file.len() {
        return Err(Reason::Limit.into());
    }
    let header = unwind_info::read_header(file, at)?;
    let code = nth(file, header, index)?;
    unwind_info::read_follows(file, header.follows_at, header.flags)?;
    code.ok_or(Reason::NotFound.into())
}

fn count(file: &[u8], h: UnwindHeader) -> Result<usize, Refusal>
    requires { h.code_start + 2 * h.count_of_codes ≤ length file.now }
    ensures { result ≡ count_in (codes_of file.now h) }
{
    let start = h.code_start;
    let end = start + unwind_operation::SLOT * (h.count_of_codes as usize);
    count_in(&file[start..end], h.version, h.frame_register)
}

fn nth(file: &[u8], h: UnwindHeader, index: usize) -> Result<Option<UnwindCode>, Refusal>
    requires { h.code_start + 2 * h.count_of_codes ≤ length file.now }
    ensures { nth_in result ≡ nth_of (codes_of file.now h) index }
{
    let start = h.code_start;
    let end = start + unwind_operation::SLOT * (h.count_of_codes as usize);
    nth_in(&file[start..end], h.version, h.frame_register, index)
}

fn count_in(slots: &[u8], version: u8, frame: Register) -> Result<usize, Refusal>
    ensures { result ≡ count_in (codes_at slots.now 0 version frame.0) }
{
    let mut place = 0;
    let mut codes = 0;
    while place < slots.len() / unwind_operation::SLOT {
        place = unwind_operation::next_code(slots, place, version, frame)?.next;
        codes += 1;
    }
    Ok(codes)
}

// The operation at an index; none where there are fewer.
fn nth_in(
    slots: &[u8],
    version: u8,
    frame: Register,
    index: usize,
) -> Result<Option<UnwindCode>, Refusal>
    ensures { nth_in result ≡ nth_of (codes_at slots.now 0 version frame.0) index }
{
    let mut place = 0;
    let mut left = index;
    while place < slots.len() / unwind_operation::SLOT {
        let taken = unwind_operation::next_code(slots, place, version, frame)?;
        if left == 0 {
            return Ok(Some(taken.code));
        }
        place = taken.next;
        left -= 1;
    }
    Ok(None)
}
