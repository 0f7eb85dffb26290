// The C interface of fat Mach-O files, declared in include/hullsift.h: each function calls a door, stores its values, and returns the number of its
// answer. A refusal sets the values to 0.
#![tactic(auto)]

ghost use Rattle.std.specs.Prelude.{◌≡◌};
ghost use Rattle.answer.specs.Answer.{number, values};
ghost use Rattle.fat.specs.Answers.{answer_open_fat, count_open_fat};
ghost use Rattle.fat.specs.Fat.{member_at_of, open_of};
ghost use Rattle.fat_member.specs.Answers.{answer_read_fat_arch, count_read_fat_arch};
ghost use Rattle.fat_member.specs.FatArch.{fat_arch, read_of};

// How many members a fat file has, all of them checked.
#[unsafe(no_mangle)]
pub extern "C" fn hullsift_fat_open(file: &[u8], out: &mut [u64; 1]) -> u8
    ensures answer { result ≡ number (answer_open_fat (open_of file.now)) }
    ensures values { out.new ≡ values count_open_fat (answer_open_fat (open_of file.now)) }
{
    c_numbers::store(fat::open(file), out)
}

// The member with that index.
#[unsafe(no_mangle)]
pub extern "C" fn hullsift_fat_arch(file: &[u8], index: usize, out: &mut [u64; 7]) -> u8
    ensures answer { result ≡ number (answer_read_fat_arch (member_at_of file.now index)) }
    ensures values { out.new ≡ values count_read_fat_arch (answer_read_fat_arch (member_at_of file.now index)) }
{
    c_numbers::store(fat::member_at(file, index), out)
}

// The member at `at`, by itself.
#[unsafe(no_mangle)]
pub extern "C" fn hullsift_read_fat_arch(bytes: &[u8], at: usize, out: &mut [u64; 7]) -> u8
    ensures answer { result ≡ number (answer_read_fat_arch (read_of fat_arch bytes.now at)) }
    ensures values { out.new ≡ values count_read_fat_arch (answer_read_fat_arch (read_of fat_arch bytes.now at)) }
{
    c_numbers::store(fat_member::read(bytes, at), out)
}
