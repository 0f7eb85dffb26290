// One unwinding step: from the registers at a stop to those of the caller, by the exception data of an image.
#![tactic(auto)]

ghost use Rattle.std.specs.Prelude.{◌≡◌, true};
ghost use Rattle.answer.specs.Test.{pick};
ghost use Rattle.unwind_undo.specs.Distance.{distance_of, has_run};
ghost use Rattle.unwind_step.specs.Step.{relative_address_of, found_of, step_of};
ghost use Rattle.unwind_step.specs.Code.{stepped_of, reached_of, ended_of, code_undone_of};

use answer::{Reason, Refusal};
use exception_data::ExceptionData;
use pe_mapping::Sections;
use runtime_function::RuntimeFunction;
use unwind_chain::{ChainCursor, NextChainCode};
use unwind_operation::UnwindCode;
use unwind_state::{StackWindow, State};
use unwind_undo::{Frame, Undone};

// The registers beside the answer: those of the caller or, where it is refused, those that were given.
#[derive(Clone, Copy, Debug, PartialEq, Eq)]
pub struct Stepped {
    pub answer: Result<(), Refusal>,
    pub state: State,
}

// One step from the registers at a stop, which are changed in place.
pub fn step(
    state: &mut State,
    file: &[u8],
    opened: ExceptionData,
    address: u32,
    window: StackWindow,
) -> Result<(), Refusal>
    ensures { record { answer = result; state = state.new } ≡ step_of file.now opened address state.old window.entry.words.now window.entry.base }
{
    let stepped = step_value(file, opened, address, *state, window);
    *state = stepped.state;
    stepped.answer
}

// The same by value.
pub fn step_value(
    file: &[u8],
    opened: ExceptionData,
    address: u32,
    state: State,
    window: StackWindow,
) -> Stepped
    ensures { result ≡ step_of file.now opened address state window.entry.words.now window.entry.base }
{
    let answer = caller(file, opened, address, state, window);
    Stepped {
        answer: answer.map(|_| ()),
        state: answer.unwrap_or(state),
    }
}

// The address of RIP in an image that is at `image`, if it is one.
pub fn relative_address(rip: u64, image: u64) -> Option<u32>
    ensures { result ≡ relative_address_of rip image }
{
    let distance = rip.checked_sub(image)?;
    u32::try_from(distance).ok()
}

// The registers of the caller, from those at a stop.
fn caller(
    file: &[u8],
    opened: ExceptionData,
    address: u32,
    state: State,
    window: StackWindow,
) -> Result<State, Refusal>
    ensures { stepped_of state result ≡ step_of file.now opened address state window.entry.words.now window.entry.base }
{
    match runtime_lookup::find_function(file, opened, address) {
        Ok(found) => {
            let function = found.holder.function;
            caller_found(file, opened.sections, function, address, state, window)
        }
        Err(k) => match k.reason {
            Reason::NotFound => ended(unwind_undo::last_step(state, window)),
            _ => Err(k),
        },
    }
}

// The same at an address that a record holds: all codes of its chain are decoded before any is undone.
fn caller_found(
    file: &[u8],
    sections: Sections,
    function: RuntimeFunction,
    address: u32,
    state: State,
    window: StackWindow,
) -> Result<State, Refusal>
    ensures { stepped_of state result ≡ found_of file.now sections function address state window.entry.words.now window.entry.base }
{
    unwind_chain::count_all_codes(file, sections, function)?;
    let start = unwind_chain::start_chain(file, sections, function)?;
    let begin = start.begin;
    let mut here = state;
    let mut cursor = start.cursor;
    loop {
        match unwind_chain::next_chain_code(file, sections, cursor)? {
            NextChainCode::Code(taken) => {
                let undone = undo_code(taken.code, cursor, begin, address, here, window);
                match reached(undone)? {
                    Undone::On(next) => here = next,
                    Undone::Caller(caller) => return Ok(caller),
                }
                cursor = taken.next;
            }
            NextChainCode::Info(next) => cursor = next,
            NextChainCode::End => return ended(unwind_undo::last_step(here, window)),
        }
    }
}

// What undoing a code of the cursor's info does: nothing, if what it stands for has not run.
#[tactic(auto, unfolding(crate::specs::Code::code_undone_of))]
fn undo_code(
    code: UnwindCode,
    cursor: ChainCursor,
    begin: u32,
    address: u32,
    state: State,
    window: StackWindow,
) -> Option<Undone>
    ensures { result ≡ code_undone_of code cursor begin address state window.entry.words.now window.entry.base }
{
    if is_undone(code.code_offset, cursor.found, begin, address) {
        let frame = Frame {
            register: cursor.header.frame_register,
            offset: cursor.header.frame_register_offset,
        };
        return unwind_undo::undo_operation(code.operation, frame, state, window);
    }
    Some(Undone::On(state))
}

// Whether a code is undone at an address: all of a chained info are, and of the found one those that have run.
fn is_undone(code_offset: u8, found: bool, begin: u32, address: u32) -> bool
    ensures { result ≡ pick found (has_run (distance_of address begin) code_offset) true }
{
    !found || address < begin || u32::from(code_offset) <= address - begin
}

// What undoing came to: where a stack word is out of reach, or an address leaves 64 bits, the step is refused.
fn reached(undone: Option<Undone>) -> Result<Undone, Refusal>
    ensures { result ≡ reached_of undone }
{
    undone.ok_or(Reason::Stack.into())
}

// The registers with which a step ends.
fn ended(undone: Option<Undone>) -> Result<State, Refusal>
    ensures { result ≡ ended_of undone }
{
    match reached(undone)? {
        Undone::On(state) | Undone::Caller(state) => Ok(state),
    }
}
