// Unwind operations, decoded from the slots of an unwind info, which are lent as that part of the file by itself; and the x64 registers
// that they name.
#![tactic(auto)]

ghost use Rattle.std.specs.Prelude.{◌≡◌, ◌∷◌, ◌*◌, ◌/◌, ◌%◌, ◌<◌, length, Ok};
ghost use Rattle.unwind_operation.specs.Answers.{code_numbers, offset_numbers, operation_numbers};
ghost use Rattle.unwind_operation.specs.Operation.{known_version_of, form_of, scale_of, operation_of, saved_at, in_two, in_three, taken, next_code_of};
ghost use Rattle.unwind_operation.specs.Code.{pending_of, form_in};
ghost use Rattle.unwind_operation.specs.Names.{name_of};

use answer::{Numbers, Reason, Refusal};
use fields::Unsigned;

// Where a register is saved, and what its offset counts from.
#[derive(Clone, Copy, Debug, PartialEq, Eq)]
pub enum StackFrameOffset {
    RSP(u32),
    // The frame register.
    FP(u32),
}

#[derive(Clone, Copy, Debug, PartialEq, Eq)]
pub enum UnwindOperation {
    PushNonVolatile(Register),
    Alloc(u32),
    SetFPRegister,
    SaveNonVolatile(Register, StackFrameOffset),
    // The low half of an XMM register.
    SaveXMM(Register, StackFrameOffset),
    Epilog {
        offset_low_or_size: u8,
        offset_high_or_flags: u8,
    },
    SaveXMM128(Register, StackFrameOffset),
    // Whether it has an error code.
    PushMachineFrame(bool),
    // Without effect.
    Noop,
}

#[derive(Clone, Copy, Debug, PartialEq, Eq)]
pub struct UnwindCode {
    pub code_offset: u8,
    pub operation: UnwindOperation,
}

impl Numbers<5> for UnwindCode {
    ghost numbers = { code_numbers };

    fn numbers(self) -> [u64; 5] {
        let [kind, register, base, amount] = operation_values(self.operation);
        [self.code_offset.into(), kind, register, base, amount]
    }
}

// The kind, the register, the base and the amount.
fn operation_values(o: UnwindOperation) -> [u64; 4]
    ensures { result ≡ operation_numbers o }
{
    match o {
        UnwindOperation::PushNonVolatile(r) => [0, r.0.into(), 0, 0],
        UnwindOperation::Alloc(n) => [1, 0, 0, n.into()],
        UnwindOperation::SetFPRegister => [2, 0, 0, 0],
        UnwindOperation::SaveNonVolatile(r, place) => save_values(3, r, place),
        UnwindOperation::SaveXMM(r, place) => save_values(4, r, place),
        UnwindOperation::Epilog {
            offset_low_or_size,
            offset_high_or_flags,
        } => [5, 0, offset_high_or_flags.into(), offset_low_or_size.into()],
        UnwindOperation::SaveXMM128(r, place) => save_values(6, r, place),
        UnwindOperation::PushMachineFrame(e) => [7, 0, 0, e.into()],
        UnwindOperation::Noop => [8, 0, 0, 0],
    }
}

fn save_values(kind: u64, r: Register, place: StackFrameOffset) -> [u64; 4]
    ensures { result ≡ kind ∷ r.0 ∷ offset_numbers place }
{
    match place {
        StackFrameOffset::RSP(n) => [kind, r.0.into(), 0, n.into()],
        StackFrameOffset::FP(n) => [kind, r.0.into(), 1, n.into()],
    }
}

#[derive(Clone, Copy, Debug, PartialEq, Eq)]
pub struct TakenCode {
    pub code: UnwindCode,
    // The slot after it.
    pub next: usize,
}

// The bytes of a slot.
pub const SLOT: usize = 2;

// An operation that takes a number from the slots after its first.
#[derive(Clone, Copy)]
enum Numbered {
    Alloc,
    SaveNonVolatile(Register),
    SaveXMM(Register),
    SaveXMM128(Register),
    Noop,
}

// The slots that an operation takes.
#[derive(Clone, Copy)]
enum Slots {
    One(UnwindOperation),
    // The second has a number of 16 bits, scaled.
    Two(Numbered),
    // The second and third have a number of 32 bits, as it is.
    Three(Numbered),
}

// The operation at a place among the slots, which is a number of slots.
pub fn next_code(
    slots: &[u8],
    place: usize,
    version: u8,
    frame: Register,
) -> Result<TakenCode, Refusal>
    ensures { result ≡ next_code_of slots.now place version frame.0 }
{
    if !known_version(version) {
        return Err(Reason::Version.into());
    }
    if slots.len() / SLOT <= place {
        return Err(answer::beyond());
    }
    let offset = slots[SLOT * place];
    let byte = slots[SLOT * place + 1];
    match form_of(version, offset, byte).ok_or(Reason::Operation)? {
        Slots::One(operation) => Ok(taken(offset, operation, place + 1)),
        Slots::Two(kind) => two_slots(slots, place, offset, kind, frame),
        Slots::Three(kind) => three_slots(slots, place, offset, kind, frame),
    }
}

// Whether there are unwind infos of that version.
pub fn known_version(version: u8) -> bool
    ensures { result ≡ known_version_of version }
{
    matches!(version, 1 | 2)
}

fn two_slots(
    slots: &[u8],
    place: usize,
    offset: u8,
    kind: Numbered,
    frame: Register,
) -> Result<TakenCode, Refusal>
    requires { place < length slots.now / 2 }
    ensures { result ≡ in_two slots.now place offset (pending_of kind) frame.0 }
{
    match u16::read(slots, SLOT * place + SLOT, false) {
        Ok(n) => Ok(taken(offset, operation(kind, frame, scaled(kind, n)), place + 2)),
        Err(_) => Err(answer::beyond()),
    }
}

fn three_slots(
    slots: &[u8],
    place: usize,
    offset: u8,
    kind: Numbered,
    frame: Register,
) -> Result<TakenCode, Refusal>
    requires { place < length slots.now / 2 }
    ensures { result ≡ in_three slots.now place offset (pending_of kind) frame.0 }
{
    match u32::read(slots, SLOT * place + SLOT, false) {
        Ok(n) => Ok(taken(offset, operation(kind, frame, n), place + 3)),
        Err(_) => Err(answer::beyond()),
    }
}

fn taken(code_offset: u8, operation: UnwindOperation, next: usize) -> TakenCode
    ensures { Ok result ≡ taken code_offset operation next }
{
    TakenCode {
        code: UnwindCode {
            code_offset,
            operation,
        },
        next,
    }
}

// The form of the operation whose slot is these two bytes, if there is such an operation.
fn form_of(version: u8, offset: u8, byte: u8) -> Option<Slots>
    ensures { form_in result ≡ form_of version offset (byte % 16) (byte / 16 % 16) }
{
    let info = byte / 16;
    match byte % 16 {
        0 => Some(Slots::One(UnwindOperation::PushNonVolatile(Register(info)))),
        1 => match info {
            0 => Some(Slots::Two(Numbered::Alloc)),
            1 => Some(Slots::Three(Numbered::Alloc)),
            _ => None,
        },
        2 => Some(Slots::One(UnwindOperation::Alloc(u32::from(info) * 8 + 8))),
        3 => Some(Slots::One(UnwindOperation::SetFPRegister)),
        4 => Some(Slots::Two(Numbered::SaveNonVolatile(Register(info)))),
        5 => Some(Slots::Three(Numbered::SaveNonVolatile(Register(info)))),
        6 => if version == 1 {
            Some(Slots::Two(Numbered::SaveXMM(Register(17 + info))))
        } else {
            Some(Slots::One(UnwindOperation::Epilog {
                offset_low_or_size: offset,
                offset_high_or_flags: info,
            }))
        },
        7 => if version == 1 {
            Some(Slots::Three(Numbered::SaveXMM(Register(17 + info))))
        } else {
            Some(Slots::Three(Numbered::Noop))
        },
        8 => Some(Slots::Two(Numbered::SaveXMM128(Register(17 + info)))),
        9 => Some(Slots::Three(Numbered::SaveXMM128(Register(17 + info)))),
        10 => match info {
            0 => Some(Slots::One(UnwindOperation::PushMachineFrame(false))),
            1 => Some(Slots::One(UnwindOperation::PushMachineFrame(true))),
            _ => None,
        },
        _ => None,
    }
}

fn scaled(kind: Numbered, n: u16) -> u32
    ensures { result ≡ scale_of (pending_of kind) * n }
{
    let n = u32::from(n);
    match kind {
        Numbered::Alloc => 8 * n,
        Numbered::SaveNonVolatile(_) => 8 * n,
        Numbered::SaveXMM(_) => 16 * n,
        Numbered::SaveXMM128(_) => 16 * n,
        Numbered::Noop => n,
    }
}

fn operation(kind: Numbered, frame: Register, n: u32) -> UnwindOperation
    ensures { result ≡ operation_of frame.0 (pending_of kind) n }
{
    let place = from_base(frame, n);
    match kind {
        Numbered::Alloc => UnwindOperation::Alloc(n),
        Numbered::SaveNonVolatile(register) => UnwindOperation::SaveNonVolatile(register, place),
        Numbered::SaveXMM(register) => UnwindOperation::SaveXMM(register, place),
        Numbered::SaveXMM128(register) => UnwindOperation::SaveXMM128(register, place),
        Numbered::Noop => UnwindOperation::Noop,
    }
}

fn from_base(frame: Register, n: u32) -> StackFrameOffset
    ensures { result ≡ saved_at frame.0 n }
{
    if frame.0 == 0 {
        StackFrameOffset::RSP(n)
    } else {
        StackFrameOffset::FP(n)
    }
}

// 0 to 15 are the general registers, 16 is the instruction pointer, 17 to 32 are XMM 0 to 15.
#[derive(Clone, Copy, Debug, PartialEq, Eq)]
pub struct Register(pub u8);

const REGISTERS: usize = 33;

impl Register {
    // The name, filled up with spaces; for a number above the last, spaces alone.
    pub fn name(self) -> [u8; 6]
        ensures { result ≡ name_of self.0 }
    {
        let at = self.0 as usize;
        if at < REGISTERS {
            NAMES[at]
        } else {
            NAMES[REGISTERS]
        }
    }
}

const NAMES: [[u8; 6]; 34] = [
    *b"$rax  ", *b"$rcx  ", *b"$rdx  ", *b"$rbx  ", *b"$rsp  ", *b"$rbp  ", *b"$rsi  ", *b"$rdi  ",
    *b"$r8   ", *b"$r9   ", *b"$r10  ", *b"$r11  ", *b"$r12  ", *b"$r13  ", *b"$r14  ", *b"$r15  ",
    *b"$rip  ", *b"$xmm0 ", *b"$xmm1 ", *b"$xmm2 ", *b"$xmm3 ", *b"$xmm4 ", *b"$xmm5 ", *b"$xmm6 ",
    *b"$xmm7 ", *b"$xmm8 ", *b"$xmm9 ", *b"$xmm10", *b"$xmm11", *b"$xmm12", *b"$xmm13", *b"$xmm14",
    *b"$xmm15", *b"      ",
];
