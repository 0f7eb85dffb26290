// The C interface of GNU symbol versions, declared in include/hullsift.h: each function calls a door, stores its values, and returns the number of
// its answer. A refusal sets the values to 0 and leaves the lent list as it was.
#![tactic(auto)]

ghost use Rattle.std.specs.Prelude.{◌≡◌};
ghost use Rattle.answer.specs.Answer.{number, values};
ghost use Rattle.verdef.specs.Verdef.{auxiliaries_of as definition_auxiliaries_of, auxiliaries_out as definition_auxiliaries_out, definitions_of, definitions_out};
ghost use Rattle.verneed.specs.Verneed.{auxiliaries_of as need_auxiliaries_of, auxiliaries_out as need_auxiliaries_out, needs_of, needs_out};
ghost use Rattle.version_section.specs.Answers.{answer_count_entries, count_count_entries};
ghost use Rattle.versym.specs.Answers.{answer_read_versym, count_read_versym};
ghost use Rattle.versym.specs.Versym.{count_of, get_at_of};

use answer::Refusal;
use version_section::CountEntries;

// How many symbol entries a section has.
#[unsafe(no_mangle)]
pub extern "C" fn hullsift_count_versym(
    file: &[u8],
    start: usize,
    size: usize,
    out: &mut [u64; 1],
) -> u8
    ensures answer { result ≡ number (answer_count_entries (count_of file.now start size)) }
    ensures values { out.new ≡ values count_count_entries (answer_count_entries (count_of file.now start size)) }
{
    store_count(versym::count(file, start, size), out)
}

// The symbol entry at an index.
#[unsafe(no_mangle)]
pub extern "C" fn hullsift_versym(
    file: &[u8],
    start: usize,
    size: usize,
    index: usize,
    big: bool,
    out: &mut [u64; 2],
) -> u8
    ensures answer { result ≡ number (answer_read_versym (get_at_of big file.now start size index)) }
    ensures values { out.new ≡ values count_read_versym (answer_read_versym (get_at_of big file.now start size index)) }
{
    c_numbers::store(versym::get_at(file, start, size, index, big), out)
}

// The definitions of a section.
#[unsafe(no_mangle)]
pub extern "C" fn hullsift_verdefs(
    file: &[u8],
    start: usize,
    size: usize,
    stated: usize,
    big: bool,
    list: &mut [u32],
    count: &mut [u64; 1],
) -> u8
    ensures answer { result ≡ number (answer_count_entries (definitions_of big file.now start size stated list.old)) }
    ensures values { count.new ≡ values count_count_entries (answer_count_entries (definitions_of big file.now start size stated list.old)) }
    ensures lent { list.new ≡ definitions_out big file.now start size stated list.old }
{
    store_count(
        verdef::definitions(file, start, size, stated, big, list),
        count,
    )
}

// The needs of a section.
#[unsafe(no_mangle)]
pub extern "C" fn hullsift_verneeds(
    file: &[u8],
    start: usize,
    size: usize,
    stated: usize,
    big: bool,
    list: &mut [u32],
    count: &mut [u64; 1],
) -> u8
    ensures answer { result ≡ number (answer_count_entries (needs_of big file.now start size stated list.old)) }
    ensures values { count.new ≡ values count_count_entries (answer_count_entries (needs_of big file.now start size stated list.old)) }
    ensures lent { list.new ≡ needs_out big file.now start size stated list.old }
{
    store_count(verneed::needs(file, start, size, stated, big, list), count)
}

// The auxiliaries of a definition.
#[unsafe(no_mangle)]
pub extern "C" fn hullsift_verdauxs(
    file: &[u8],
    start: usize,
    size: usize,
    place: u32,
    aux: u32,
    cnt: u32,
    big: bool,
    list: &mut [u32],
    count: &mut [u64; 1],
) -> u8
    ensures answer { result ≡ number (answer_count_entries (definition_auxiliaries_of big file.now start size place aux cnt list.old)) }
    ensures values { count.new ≡ values count_count_entries (answer_count_entries (definition_auxiliaries_of big file.now start size place aux cnt list.old)) }
    ensures lent { list.new ≡ definition_auxiliaries_out big file.now start size place aux cnt list.old }
{
    store_count(
        verdef::auxiliaries(file, start, size, place, aux, cnt, big, list),
        count,
    )
}

// The auxiliaries of a need.
#[unsafe(no_mangle)]
pub extern "C" fn hullsift_vernauxs(
    file: &[u8],
    start: usize,
    size: usize,
    place: u32,
    aux: u32,
    cnt: u32,
    big: bool,
    list: &mut [u32],
    count: &mut [u64; 1],
) -> u8
    ensures answer { result ≡ number (answer_count_entries (need_auxiliaries_of big file.now start size place aux cnt list.old)) }
    ensures values { count.new ≡ values count_count_entries (answer_count_entries (need_auxiliaries_of big file.now start size place aux cnt list.old)) }
    ensures lent { list.new ≡ need_auxiliaries_out big file.now start size place aux cnt list.old }
{
    store_count(
        verneed::auxiliaries(file, start, size, place, aux, cnt, big, list),
        count,
    )
}

// The same as `c_numbers::store`, of an answer that may be a list that ends at bad bytes.
fn store_count(a: Result<CountEntries, Refusal>, count: &mut [u64; 1]) -> u8
    ensures answer { result ≡ number (answer_count_entries a) }
    ensures values { count.new ≡ values count_count_entries (answer_count_entries a) }
{
    match a {
        Ok(CountEntries::Whole(n)) => {
            *count = [n as u64];
            0
        }
        Ok(CountEntries::Cut(n)) => {
            *count = [n as u64];
            1
        }
        Err(k) => {
            *count = [0];
            k.into()
        }
    }
}
