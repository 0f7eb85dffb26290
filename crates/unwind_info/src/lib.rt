// Unwind info (`UNWIND_INFO`): its header, and what follows its codes. None of the codes is decoded here.
#![tactic(auto)]

ghost use Rattle.std.specs.Prelude.{◌≡◌};
ghost use Rattle.unwind_info.specs.Answers.{follows_numbers, info_numbers};
ghost use Rattle.unwind_info.specs.Unwind.{read_header_of, handler_at, read_follows_of, read_info_of};

use answer::{Numbers, Reason, Refusal};
use cursor::Cursor;
use runtime_function::RuntimeFunction;
use unwind_operation::Register;

#[derive(Clone, Copy, Debug, PartialEq, Eq)]
pub struct UnwindHeader {
    pub version: u8,
    // As they are: bits without meaning are kept.
    pub flags: u8,
    pub size_of_prolog: u8,
    // In slots of two bytes.
    pub count_of_codes: u8,
    pub frame_register: Register,
    // In bytes.
    pub frame_register_offset: u32,
    // Where the slots start in the file: `2 * count_of_codes` bytes of it are there.
    pub code_start: usize,
    // Where what follows the codes is, if something does: after the unused slot of an odd count.
    pub follows_at: usize,
}

#[derive(Clone, Copy, Debug, PartialEq, Eq)]
pub enum HandlerKind {
    Exception,
    Termination,
}

#[derive(Clone, Copy, Debug, PartialEq, Eq)]
pub struct UnwindHandler {
    pub kind: HandlerKind,
    pub address: u32,
    // Its data: the part of the file that starts at `start` and has `length` bytes.
    pub start: usize,
    pub length: usize,
}

// What follows the codes.
#[derive(Clone, Copy, Debug, PartialEq, Eq)]
pub enum Follows {
    Nothing,
    Chained(RuntimeFunction),
    Handler(UnwindHandler),
}

#[derive(Clone, Copy, Debug, PartialEq, Eq)]
pub struct UnwindInfo {
    pub header: UnwindHeader,
    pub follows: Follows,
}

impl Numbers<12> for UnwindInfo {
    ghost numbers = { info_numbers };

    fn numbers(self) -> [u64; 12] {
        let h = self.header;
        let [kind, first, second, third] = follows_values(self.follows);
        [
            h.version.into(),
            h.flags.into(),
            h.size_of_prolog.into(),
            h.count_of_codes.into(),
            h.frame_register.0.into(),
            h.frame_register_offset.into(),
            h.code_start as u64,
            h.follows_at as u64,
            kind,
            first,
            second,
            third,
        ]
    }
}

fn follows_values(f: Follows) -> [u64; 4]
    ensures { result ≡ follows_numbers f }
{
    match f {
        Follows::Nothing => [0; 4],
        Follows::Chained(e) => [1, e.begin.into(), e.end.into(), e.unwind.into()],
        Follows::Handler(h) => {
            let kind = match h.kind {
                HandlerKind::Exception => 2,
                HandlerKind::Termination => 3,
            };
            [kind, h.address.into(), h.start as u64, h.length as u64]
        }
    }
}

// The unwind info at an offset of the file.
pub fn read_info(file: &[u8], at: usize) -> Result<UnwindInfo, Refusal>
    ensures { result ≡ read_info_of file.now at }
{
    if answer::FILE_LIMIT < file.len() {
        return Err(Reason::Limit.into());
    }
    let header = read_header(file, at)?;
    let follows = read_follows(file, header.follows_at, header.flags)?;
    Ok(UnwindInfo { header, follows })
}

// The header at an offset of the bytes, which have all of its slots.
pub fn read_header(s: &[u8], at: usize) -> Result<UnwindHeader, Refusal>
    ensures { result ≡ read_header_of s.now at }
{
    let cursor = Cursor::new(at);
    let (first, cursor) = cursor.next::<u8>(s, false)?;
    let version = first % 8;
    if !unwind_operation::known_version(version) {
        return Err(Reason::Version.into());
    }
    let (size_of_prolog, cursor) = cursor.next(s, false)?;
    let (count_of_codes, cursor) = cursor.next::<u8>(s, false)?;
    let (frame, cursor) = cursor.next::<u8>(s, false)?;
    let slots = count_of_codes as usize;
    if !fields::fits(s.len(), cursor.at, 2 * slots) {
        return Err(answer::cut(cursor.at, 2 * slots));
    }
    Ok(UnwindHeader {
        version,
        flags: first / 8,
        size_of_prolog,
        count_of_codes,
        frame_register: Register(frame % 16),
        frame_register_offset: 16 * (frame / 16) as u32,
        code_start: cursor.at,
        follows_at: cursor.at + 2 * (slots + slots % 2),
    })
}

// What follows the codes of an info with these flags: it starts at `at`.
pub fn read_follows(s: &[u8], at: usize, flags: u8) -> Result<Follows, Refusal>
    ensures { result ≡ read_follows_of s.now at flags }
{
    if flags / 4 % 2 == 1 {
        let record = runtime_function::read(s, at)?;
        Ok(Follows::Chained(record))
    } else if flags % 2 == 1 {
        handler(s, at, HandlerKind::Exception)
    } else if flags / 2 % 2 == 1 {
        handler(s, at, HandlerKind::Termination)
    } else {
        Ok(Follows::Nothing)
    }
}

fn handler(s: &[u8], at: usize, kind: HandlerKind) -> Result<Follows, Refusal>
    ensures { result ≡ handler_at s.now at kind }
{
    let cursor = Cursor::new(at);
    let (address, cursor) = cursor.next(s, false)?;
    Ok(Follows::Handler(UnwindHandler {
        kind,
        address,
        start: cursor.at,
        length: s.len() - cursor.at,
    }))
}
