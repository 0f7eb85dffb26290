// What undoing one operation does to the registers of a frame, and the last step of an unwinding step, by value.
#![tactic(auto)]

ghost use Rattle.std.specs.Prelude.{◌≡◌, ◌+◌, ◌<◌};
ghost use Rattle.unwind_undo.specs.Undo.{place_of, xmm_number, undo_push, undo_alloc, undo_set_frame, undo_machine_frame};
ghost use Rattle.unwind_undo.specs.Code.{on_of, caller_of, window_of, frame_at, word_of, base_of, saved_of, undo_operation_of, last_step_of};

use unwind_operation::{Register, StackFrameOffset, UnwindOperation};
use unwind_state::{StackWindow, State};

// What undoing comes to.
#[derive(Clone, Copy, Debug, PartialEq, Eq)]
pub enum Undone {
    // Registers to go on with.
    On(State),
    // The registers of the caller.
    Caller(State),
}

// The frame of an info: its frame register and its frame offset.
#[derive(Clone, Copy, Debug, PartialEq, Eq)]
pub struct Frame {
    pub register: Register,
    pub offset: u32,
}

// RSP among the general registers, and the first XMM register among all.
const RSP: u8 = 4;

const XMM0: u8 = 17;

// The bytes of a stack word, and how far above RIP a machine frame has the old RSP.
const WORD: u64 = 8;

const OLD_RSP: u64 = 24;

// The bytes of an error code below a machine frame.
const ERROR_CODE: u64 = 8;

// What undoing an operation of an info with this frame does; none where a stack word is not in the window, or an address leaves 64 bits.
pub fn undo_operation(
    operation: UnwindOperation,
    frame: Frame,
    state: State,
    window: StackWindow,
) -> Option<Undone>
    ensures { result ≡ undo_operation_of operation frame.register.0 frame.offset state window.entry.words.now window.entry.base }
{
    let undone = match operation {
        UnwindOperation::PushNonVolatile(r) => push(r, state, window)?,
        UnwindOperation::Alloc(n) => alloc(n, state)?,
        UnwindOperation::SetFPRegister => set_frame(frame, state)?,
        UnwindOperation::SaveNonVolatile(r, place) => {
            let value = saved_word(bytes_of(place), frame, state, window)?;
            state.with_gpr(r.0, value)
        }
        UnwindOperation::SaveXMM(r, place) => {
            let value = saved_word(bytes_of(place), frame, state, window)?;
            state.with_xmm_low(xmm_number(r), value)
        }
        UnwindOperation::SaveXMM128(r, place) => {
            let by = bytes_of(place);
            let low = saved_word(by, frame, state, window)?;
            let high = saved_word(by + WORD, frame, state, window)?;
            state.with_xmm(xmm_number(r), low, high)
        }
        UnwindOperation::PushMachineFrame(code) => {
            return Some(Undone::Caller(machine_frame(code, state, window)?));
        }
        UnwindOperation::Epilog { .. } | UnwindOperation::Noop => state,
    };
    Some(Undone::On(undone))
}

// The last step: RIP is the word at RSP, and RSP grows by 8.
pub fn last_step(state: State, window: StackWindow) -> Option<Undone>
    ensures { result ≡ last_step_of state window.entry.words.now window.entry.base }
{
    let rsp = state.get_gpr(RSP);
    let rip = word_above(rsp, 0, window)?;
    let next = rsp.checked_add(WORD)?;
    Some(Undone::Caller(state.with_gpr(RSP, next).with_rip(rip)))
}

// The stack word that is so far above an address.
fn word_above(from: u64, by: u64, window: StackWindow) -> Option<u64>
    ensures { result ≡ word_of window.entry.words.now window.entry.base (from + by) }
{
    let address = from.checked_add(by)?;
    window.word_at(address)
}

// What the place of a save counts from.
fn base_of(frame: Frame, state: State) -> Option<u64>
    ensures { result ≡ base_of frame.register.0 frame.offset state }
{
    if frame.register.0 == 0 {
        Some(state.get_gpr(RSP))
    } else {
        state
            .get_gpr(frame.register.0)
            .checked_sub(frame.offset as u64)
    }
}

fn push(register: Register, state: State, window: StackWindow) -> Option<State>
    ensures { on_of result ≡ undo_push (window_of window.entry.words.now window.entry.base) register.0 state }
{
    let value = word_above(state.get_gpr(RSP), 0, window)?;
    let loaded = state.with_gpr(register.0, value);
    let next = loaded.get_gpr(RSP).checked_add(WORD)?;
    Some(loaded.with_gpr(RSP, next))
}

fn alloc(size: u32, state: State) -> Option<State>
    ensures { on_of result ≡ undo_alloc size state }
{
    let next = state.get_gpr(RSP).checked_add(size as u64)?;
    Some(state.with_gpr(RSP, next))
}

fn set_frame(frame: Frame, state: State) -> Option<State>
    ensures { on_of result ≡ undo_set_frame (frame_at frame.register.0 frame.offset) state }
{
    let rsp = state
        .get_gpr(frame.register.0)
        .checked_sub(frame.offset as u64)?;
    Some(state.with_gpr(RSP, rsp))
}

fn machine_frame(code: bool, state: State, window: StackWindow) -> Option<State>
    ensures { caller_of result ≡ undo_machine_frame (window_of window.entry.words.now window.entry.base) code state }
{
    let by = if code { ERROR_CODE } else { 0 };
    let rsp = state.get_gpr(RSP);
    let rip = word_above(rsp, by, window)?;
    let old = word_above(rsp, by + OLD_RSP, window)?;
    Some(state.with_gpr(RSP, old).with_rip(rip))
}

// The stack word at which a register is saved, so far above its base.
fn saved_word(by: u64, frame: Frame, state: State, window: StackWindow) -> Option<u64>
    ensures { result ≡ saved_of by frame.register.0 frame.offset state window.entry.words.now window.entry.base }
{
    let from = base_of(frame, state)?;
    word_above(from, by, window)
}

// How far above its base a register is saved: 32 bits at most.
fn bytes_of(place: StackFrameOffset) -> u64
    ensures place { result ≡ place_of place }
    ensures most { result < 4294967296 }
{
    match place {
        StackFrameOffset::RSP(n) | StackFrameOffset::FP(n) => n as u64,
    }
}

// The number of an XMM register among these alone; 0 for one that is none.
fn xmm_number(register: Register) -> u8
    ensures { result ≡ xmm_number register }
{
    register.0.saturating_sub(XMM0)
}
