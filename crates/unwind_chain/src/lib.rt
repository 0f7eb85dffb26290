// The chain of a runtime record: its unwind info, and each info that the one before is chained to, with all their codes. They are walked
// in the lent bytes, in constant memory: a cursor goes from code to code and from info to info.
#![tactic(auto)]

ghost use Rattle.std.specs.Prelude.{◌≡◌};
ghost use Rattle.unwind_chain.specs.Answers.{totals_numbers};
ghost use Rattle.unwind_chain.specs.Chain.{link_at, count_all_codes_of};
ghost use Rattle.unwind_chain.specs.Code.{linked_of};
ghost use Rattle.unwind_chain.specs.Cursor.{cursor_at, start_chain_of, code_in, code_at, after_codes, next_chain_code_of};

use answer::{Numbers, Reason, Refusal};
use pe_mapping::Sections;
use runtime_function::RuntimeFunction;
use unwind_info::{Follows, UnwindHeader};
use unwind_links::ReachedInfo;
use unwind_operation::UnwindCode;

#[derive(Clone, Copy, Debug, PartialEq, Eq)]
pub struct Totals {
    // How many links were followed.
    pub links: usize,
    // How many operations all the infos have.
    pub codes: usize,
}

impl Numbers<2> for Totals {
    ghost numbers = { totals_numbers };

    fn numbers(self) -> [u64; 2] {
        [self.links as u64, self.codes as u64]
    }
}

// A place among the codes of a chain: an info, and a slot of it.
#[derive(Clone, Copy, Debug, PartialEq, Eq)]
pub struct ChainCursor {
    pub header: UnwindHeader,
    pub follows: Follows,
    // How many links led to the info.
    pub links: usize,
    // Whether it is the info that was found, and not one that it is chained to.
    pub found: bool,
    // The slot at which the next code starts.
    pub slot: usize,
}

#[derive(Clone, Copy, Debug, PartialEq, Eq)]
pub struct ChainStart {
    // Where the function of the record that names the found info begins.
    pub begin: u32,
    pub cursor: ChainCursor,
}

#[derive(Clone, Copy, Debug, PartialEq, Eq)]
pub struct TakenChainCode {
    pub code: UnwindCode,
    pub next: ChainCursor,
}

#[derive(Clone, Copy, Debug, PartialEq, Eq)]
pub enum NextChainCode {
    // A code of the cursor's info, and the cursor after it.
    Code(TakenChainCode),
    // The info has no further code: the cursor at the first slot of the info that it is chained to.
    Info(ChainCursor),
    // Nor is it chained to another.
    End,
}

// An info with all its codes decoded.
#[derive(Clone, Copy)]
struct Linked {
    // How many links led to it.
    links: usize,
    // How many codes it has.
    codes: usize,
    // The record that it is chained to, if it is.
    next: Option<RuntimeFunction>,
}

// How many links the chain of a runtime record has, and how many codes; or the first refusal on the way.
pub fn count_all_codes(
    file: &[u8],
    sections: Sections,
    function: RuntimeFunction,
) -> Result<Totals, Refusal>
    ensures { result ≡ count_all_codes_of file.now sections function }
{
    let mut here = function;
    let mut links = 0;
    let mut codes = 0;
    loop {
        let linked = read_link(file, sections, here, links)?;
        codes += linked.codes;
        let Some(next) = linked.next else {
            return Ok(Totals {
                links: linked.links,
                codes,
            });
        };
        here = next;
        links = linked.links + 1;
    }
}

// The cursor at the first code of a record's chain. No code is decoded.
pub fn start_chain(
    file: &[u8],
    sections: Sections,
    function: RuntimeFunction,
) -> Result<ChainStart, Refusal>
    ensures { result ≡ start_chain_of file.now sections function }
{
    let reached = unwind_links::first_info(file, sections, function)?;
    Ok(ChainStart {
        begin: reached.place.begin,
        cursor: cursor_at(reached, true),
    })
}

// What comes next on the way through a chain: a code, the next info, or its end.
pub fn next_chain_code(
    file: &[u8],
    sections: Sections,
    cursor: ChainCursor,
) -> Result<NextChainCode, Refusal>
    ensures { result ≡ next_chain_code_of file.now sections cursor }
{
    if answer::FILE_LIMIT < file.len() {
        return Err(Reason::Limit.into());
    }
    if cursor.slot < cursor.header.count_of_codes as usize {
        return code_at(file, cursor);
    }
    after_codes(file, sections, cursor)
}

// The info of a record to which so many links have led, all its codes decoded.
fn read_link(
    file: &[u8],
    sections: Sections,
    function: RuntimeFunction,
    links: usize,
) -> Result<Linked, Refusal>
    ensures { result ≡ linked_of (link_at file.now sections function links) }
{
    let place = unwind_links::locate_info(file, sections, function, links)?;
    let checked = unwind_codes::check_info(file, place.offset)?;
    let next = match checked.info.follows {
        Follows::Chained(record) => Some(record),
        Follows::Nothing | Follows::Handler(_) => None,
    };
    Ok(Linked {
        links: place.links,
        codes: checked.codes,
        next,
    })
}

// The cursor at the first slot of an info.
fn cursor_at(reached: ReachedInfo, found: bool) -> ChainCursor
    ensures { result ≡ cursor_at reached.place.links reached.info found }
{
    ChainCursor {
        header: reached.info.header,
        follows: reached.info.follows,
        links: reached.place.links,
        found,
        slot: 0,
    }
}

// The code at the cursor's slot, if the slots of its info lie in the file.
fn code_at(file: &[u8], cursor: ChainCursor) -> Result<NextChainCode, Refusal>
    ensures { result ≡ code_at file.now cursor }
{
    let start = cursor.header.code_start;
    let slots = unwind_operation::SLOT * (cursor.header.count_of_codes as usize);
    if !fields::fits(file.len(), start, slots) {
        return Err(answer::cut(start, slots));
    }
    code_in(&file[start..start + slots], cursor)
}

// The code at the cursor's slot, of the slots of its info.
#[tactic(auto, unfolding(crate::specs::Cursor::code_in))]
fn code_in(slots: &[u8], cursor: ChainCursor) -> Result<NextChainCode, Refusal>
    ensures { result ≡ code_in slots.now cursor }
{
    let h = cursor.header;
    let taken = unwind_operation::next_code(slots, cursor.slot, h.version, h.frame_register)?;
    Ok(NextChainCode::Code(TakenChainCode {
        code: taken.code,
        next: ChainCursor {
            slot: taken.next,
            ..cursor
        },
    }))
}

// What comes after the last code of an info.
fn after_codes(
    file: &[u8],
    sections: Sections,
    cursor: ChainCursor,
) -> Result<NextChainCode, Refusal>
    ensures { result ≡ after_codes file.now sections cursor }
{
    let Follows::Chained(record) = cursor.follows else {
        return Ok(NextChainCode::End);
    };
    let reached = unwind_links::chained_info(file, sections, record, cursor.links)?;
    Ok(NextChainCode::Info(cursor_at(reached, false)))
}
