// The section table as a C caller states it: three numbers, whatever they are.
#![tactic(auto)]

ghost use Rattle.std.specs.Prelude.{◌≡◌};
ghost use Rattle.c_sections.specs.Sections.{small_of, read_sections_of};

use pe_mapping::Sections;

// The offset of the table, the number of its rows, and the file alignment.
pub fn read_sections(numbers: &[u64; 3]) -> Sections
    ensures { result ≡ read_sections_of numbers.now }
{
    let [table, count, alignment] = *numbers;
    Sections {
        table: table as usize,
        count: count as usize,
        alignment: small(alignment),
    }
}

// A number of 32 bits as it is; 0, an alignment that maps nothing, for a larger one.
pub fn small(n: u64) -> u32
    ensures { result ≡ small_of n }
{
    u32::try_from(n).unwrap_or(0)
}
