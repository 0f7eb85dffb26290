// From a runtime record to its unwind info, and from an info to the one that it is chained to. Each odd unwind address and each
// chained info is a link; at most 32 are followed.
#![tactic(auto)]

ghost use Rattle.std.specs.Prelude.{◌≡◌, ◌≤◌, Ok};
ghost use Rattle.unwind_links.specs.Answers.{reached_numbers};
ghost use Rattle.unwind_links.specs.Links.{record_at_of, place_of, locate_from, locate_info_of, info_at, first_info_of, chained_info_of, next_info_of};

use answer::{Numbers, Reason, Refusal};
use pe_mapping::Sections;
use runtime_function::RuntimeFunction;
use unwind_info::{Follows, UnwindInfo};

// The most links that are followed from one runtime record.
pub const LIMIT: usize = 32;

// Where an info is.
#[derive(Clone, Copy, Debug, PartialEq, Eq)]
pub struct InfoPlace {
    // Where the function of the record that names the info begins.
    pub begin: u32,
    // Where the info is in the file.
    pub offset: usize,
    // How many links led there.
    pub links: usize,
}

#[derive(Clone, Copy, Debug, PartialEq, Eq)]
pub struct ReachedInfo {
    pub place: InfoPlace,
    pub info: UnwindInfo,
}

impl Numbers<15> for ReachedInfo {
    ghost numbers = { reached_numbers };

    fn numbers(self) -> [u64; 15] {
        let i = self.info.numbers();
        [
            self.place.begin.into(),
            self.place.offset as u64,
            self.place.links as u64,
            i[0],
            i[1],
            i[2],
            i[3],
            i[4],
            i[5],
            i[6],
            i[7],
            i[8],
            i[9],
            i[10],
            i[11],
        ]
    }
}

// The unwind info of a runtime record, odd addresses followed.
#[tactic(auto, unfolding(crate::specs::Links::info_at))]
pub fn first_info(
    file: &[u8],
    sections: Sections,
    function: RuntimeFunction,
) -> Result<ReachedInfo, Refusal>
    ensures { result ≡ first_info_of file.now sections function }
{
    let place = locate_info(file, sections, function, 0)?;
    reach(file, place)
}

// The unwind info that another one is chained to, if it is.
pub fn next_info(
    file: &[u8],
    sections: Sections,
    here: ReachedInfo,
) -> Result<Option<ReachedInfo>, Refusal>
    ensures { result ≡ next_info_of file.now sections here }
{
    if answer::FILE_LIMIT < file.len() {
        return Err(Reason::Limit.into());
    }
    let Follows::Chained(record) = here.info.follows else {
        return Ok(None);
    };
    let there = chained_info(file, sections, record, here.place.links)?;
    Ok(Some(there))
}

// The unwind info of the record that an info is chained to, to which so many links led, odd addresses followed.
pub fn chained_info(
    file: &[u8],
    sections: Sections,
    function: RuntimeFunction,
    links: usize,
) -> Result<ReachedInfo, Refusal>
    ensures { result ≡ chained_info_of file.now sections function links }
{
    let place = locate_info(file, sections, function, links.saturating_add(1))?;
    reach(file, place)
}

// Where the unwind info of a runtime record is, to which so many links have led already.
pub fn locate_info(
    file: &[u8],
    sections: Sections,
    function: RuntimeFunction,
    links: usize,
) -> Result<InfoPlace, Refusal>
    ensures { result ≡ locate_info_of file.now sections function links }
{
    if answer::FILE_LIMIT < file.len() {
        Err(Reason::Limit.into())
    } else if LIMIT < links {
        Err(Reason::Links.into())
    } else {
        locate(file, sections, function, LIMIT - links)
    }
}

// The runtime record at an address.
#[tactic(auto, unfolding(crate::specs::Links::record_at_of))]
pub fn record_at(file: &[u8], sections: Sections, address: u32) -> Result<RuntimeFunction, Refusal>
    ensures { result ≡ record_at_of file.now sections address }
{
    let offset = pe_mapping::find_offset(file, sections, address.into())?;
    runtime_function::read(file, offset as usize)
}

// Where the info of a record is, where at most `left` links may be followed.
fn locate(
    file: &[u8],
    sections: Sections,
    function: RuntimeFunction,
    left: usize,
) -> Result<InfoPlace, Refusal>
    requires { left ≤ 32 }
    ensures { result ≡ locate_from left file.now sections function }
{
    let mut here = function;
    let mut more = left;
    while here.unwind % 2 == 1 {
        if more == 0 {
            return Err(Reason::Links.into());
        }
        here = record_at(file, sections, here.unwind - 1)?;
        more -= 1;
    }
    place_of(file, sections, here, LIMIT - more)
}

// Where the info is that a record names itself.
#[tactic(auto, unfolding(crate::specs::Links::place_of))]
fn place_of(
    file: &[u8],
    sections: Sections,
    function: RuntimeFunction,
    links: usize,
) -> Result<InfoPlace, Refusal>
    ensures { result ≡ place_of file.now sections function links }
{
    let offset = pe_mapping::find_offset(file, sections, function.unwind.into())?;
    Ok(InfoPlace {
        begin: function.begin,
        offset: offset as usize,
        links,
    })
}

// The info at a place that was located.
#[tactic(auto, unfolding(crate::specs::Links::info_at))]
fn reach(file: &[u8], place: InfoPlace) -> Result<ReachedInfo, Refusal>
    ensures { result ≡ info_at file.now (Ok place) }
{
    let info = unwind_info::read_info(file, place.offset)?;
    Ok(ReachedInfo { place, info })
}
