// The C interface of links and chains, declared in include/hullsift.h: each function calls a door, stores its values, and returns the number of its
// answer. A refusal sets the values to 0.
#![tactic(auto)]

ghost use Rattle.std.specs.Prelude.{◌≡◌};
ghost use Rattle.answer.specs.Answer.{number, values};
ghost use Rattle.c_sections.specs.Sections.{read_sections_of};
ghost use Rattle.runtime_function.specs.Answers.{answer_read_runtime_function, count_read_runtime_function};
ghost use Rattle.unwind_chain.specs.Answers.{answer_count_all_codes, count_count_all_codes};
ghost use Rattle.unwind_chain.specs.Chain.{count_all_codes_of};
ghost use Rattle.unwind_links.specs.Answers.{answer_reach_info, count_reach_info};
ghost use Rattle.unwind_links.specs.Links.{chained_info_of, first_info_of, record_at_of};

use runtime_function::RuntimeFunction;

// The info of a runtime record, odd addresses followed.
#[unsafe(no_mangle)]
pub extern "C" fn hullsift_first_info(
    file: &[u8],
    sections: &[u64; 3],
    begin: u32,
    end: u32,
    unwind: u32,
    out: &mut [u64; 15],
) -> u8
    ensures answer { result ≡ number (answer_reach_info (first_info_of file.now (read_sections_of sections.now) (record { begin = begin; end = end; unwind = unwind }))) }
    ensures values { out.new ≡ values count_reach_info (answer_reach_info (first_info_of file.now (read_sections_of sections.now) (record { begin = begin; end = end; unwind = unwind }))) }
{
    let sections = c_sections::read_sections(sections);
    let function = RuntimeFunction { begin, end, unwind };
    c_numbers::store(unwind_links::first_info(file, sections, function), out)
}

// The info that another one is chained to, by the record that it is chained to and the links that led to it.
#[unsafe(no_mangle)]
pub extern "C" fn hullsift_next_info(
    file: &[u8],
    sections: &[u64; 3],
    links: usize,
    begin: u32,
    end: u32,
    unwind: u32,
    out: &mut [u64; 15],
) -> u8
    ensures answer { result ≡ number (answer_reach_info (chained_info_of file.now (read_sections_of sections.now) (record { begin = begin; end = end; unwind = unwind }) links)) }
    ensures values { out.new ≡ values count_reach_info (answer_reach_info (chained_info_of file.now (read_sections_of sections.now) (record { begin = begin; end = end; unwind = unwind }) links)) }
{
    let sections = c_sections::read_sections(sections);
    let function = RuntimeFunction { begin, end, unwind };
    c_numbers::store(
        unwind_links::chained_info(file, sections, function, links),
        out,
    )
}

// The runtime record at an address.
#[unsafe(no_mangle)]
pub extern "C" fn hullsift_record_at(
    file: &[u8],
    sections: &[u64; 3],
    address: u32,
    out: &mut [u64; 3],
) -> u8
    ensures answer { result ≡ number (answer_read_runtime_function (record_at_of file.now (read_sections_of sections.now) address)) }
    ensures values { out.new ≡ values count_read_runtime_function (answer_read_runtime_function (record_at_of file.now (read_sections_of sections.now) address)) }
{
    let sections = c_sections::read_sections(sections);
    c_numbers::store(unwind_links::record_at(file, sections, address), out)
}

// How many links and codes all infos of a runtime record have, every code decoded.
#[unsafe(no_mangle)]
pub extern "C" fn hullsift_count_all_codes(
    file: &[u8],
    sections: &[u64; 3],
    begin: u32,
    end: u32,
    unwind: u32,
    out: &mut [u64; 2],
) -> u8
    ensures answer { result ≡ number (answer_count_all_codes (count_all_codes_of file.now (read_sections_of sections.now) (record { begin = begin; end = end; unwind = unwind }))) }
    ensures values { out.new ≡ values count_count_all_codes (answer_count_all_codes (count_all_codes_of file.now (read_sections_of sections.now) (record { begin = begin; end = end; unwind = unwind }))) }
{
    let sections = c_sections::read_sections(sections);
    let function = RuntimeFunction { begin, end, unwind };
    c_numbers::store(unwind_chain::count_all_codes(file, sections, function), out)
}
