// The C interface of fields and answers, declared in include/hullsift.h: each function calls a door, stores its values, and returns the number of
// its answer. A refusal sets the values to 0 and leaves lent bytes as they were.
#![tactic(auto)]

ghost use Rattle.std.specs.Prelude.{◌≡◌, false, get_or};
ghost use Rattle.answer.specs.Answer.{number, values};
ghost use Rattle.answer.specs.Words.{words_of};
ghost use Rattle.c_ground.specs.Fields.{answer_next, count_next, next_u16, next_u32, next_u64, next_u8, read_u16, read_u32, read_u64, read_u8, numbers_of, taken, write_number};
ghost use Rattle.cursor.specs.Next.{next_of};
ghost use Rattle.fields.specs.Answers.{answer_read, count_read};
ghost use Rattle.fields.specs.Field.{fits_of, write_out};

use answer::{Numbers, Refusal};
use cursor::Cursor;
use fields::Unsigned;

// A number, and the place after it.
#[derive(Clone, Copy)]
struct Taken {
    number: u64,
    place: Cursor,
}

impl Numbers<2> for Taken {
    ghost numbers = { numbers_of };

    fn numbers(self) -> [u64; 2] {
        [self.number, self.place.at as u64]
    }
}

// The number of 8 bits at `at`.
#[unsafe(no_mangle)]
pub extern "C" fn hullsift_read_u8(bytes: &[u8], at: usize, out: &mut [u64; 1]) -> u8
    ensures answer { result ≡ number (answer_read (read_u8 bytes.now at)) }
    ensures values { out.new ≡ values count_read (answer_read (read_u8 bytes.now at)) }
{
    c_numbers::store(u8::read(bytes, at, false), out)
}

// The same by a cursor, with the place after it.
#[unsafe(no_mangle)]
pub extern "C" fn hullsift_next_u8(bytes: &[u8], at: usize, out: &mut [u64; 2]) -> u8
    ensures answer { result ≡ number (answer_next (next_u8 bytes.now at)) }
    ensures values { out.new ≡ values count_next (answer_next (next_u8 bytes.now at)) }
{
    c_numbers::store(next::<u8>(bytes, at, false), out)
}

// The number of 16 bits at `at`.
#[unsafe(no_mangle)]
pub extern "C" fn hullsift_read_u16(bytes: &[u8], at: usize, big: bool, out: &mut [u64; 1]) -> u8
    ensures answer { result ≡ number (answer_read (read_u16 big bytes.now at)) }
    ensures values { out.new ≡ values count_read (answer_read (read_u16 big bytes.now at)) }
{
    c_numbers::store(u16::read(bytes, at, big), out)
}

// The same by a cursor, with the place after it.
#[unsafe(no_mangle)]
pub extern "C" fn hullsift_next_u16(bytes: &[u8], at: usize, big: bool, out: &mut [u64; 2]) -> u8
    ensures answer { result ≡ number (answer_next (next_u16 big bytes.now at)) }
    ensures values { out.new ≡ values count_next (answer_next (next_u16 big bytes.now at)) }
{
    c_numbers::store(next::<u16>(bytes, at, big), out)
}

// The number of 32 bits at `at`.
#[unsafe(no_mangle)]
pub extern "C" fn hullsift_read_u32(bytes: &[u8], at: usize, big: bool, out: &mut [u64; 1]) -> u8
    ensures answer { result ≡ number (answer_read (read_u32 big bytes.now at)) }
    ensures values { out.new ≡ values count_read (answer_read (read_u32 big bytes.now at)) }
{
    c_numbers::store(u32::read(bytes, at, big), out)
}

// The same by a cursor, with the place after it.
#[unsafe(no_mangle)]
pub extern "C" fn hullsift_next_u32(bytes: &[u8], at: usize, big: bool, out: &mut [u64; 2]) -> u8
    ensures answer { result ≡ number (answer_next (next_u32 big bytes.now at)) }
    ensures values { out.new ≡ values count_next (answer_next (next_u32 big bytes.now at)) }
{
    c_numbers::store(next::<u32>(bytes, at, big), out)
}

// The number of 64 bits at `at`.
#[unsafe(no_mangle)]
pub extern "C" fn hullsift_read_u64(bytes: &[u8], at: usize, big: bool, out: &mut [u64; 1]) -> u8
    ensures answer { result ≡ number (answer_read (read_u64 big bytes.now at)) }
    ensures values { out.new ≡ values count_read (answer_read (read_u64 big bytes.now at)) }
{
    c_numbers::store(u64::read(bytes, at, big), out)
}

// The same by a cursor, with the place after it.
#[unsafe(no_mangle)]
pub extern "C" fn hullsift_next_u64(bytes: &[u8], at: usize, big: bool, out: &mut [u64; 2]) -> u8
    ensures answer { result ≡ number (answer_next (next_u64 big bytes.now at)) }
    ensures values { out.new ≡ values count_next (answer_next (next_u64 big bytes.now at)) }
{
    c_numbers::store(next::<u64>(bytes, at, big), out)
}

// Writes a number of 8 bits at `at`.
#[unsafe(no_mangle)]
pub extern "C" fn hullsift_write_u8(bytes: &mut [u8], at: usize, number: u8) -> u8
    ensures answer { result ≡ write_number 1 bytes.old at }
    ensures lent { bytes.new ≡ write_out false 1 bytes.old at number }
{
    c_numbers::number(u8::write(number, bytes, at, false))
}

// Writes a number of 16 bits at `at`.
#[unsafe(no_mangle)]
pub extern "C" fn hullsift_write_u16(bytes: &mut [u8], at: usize, number: u16, big: bool) -> u8
    ensures answer { result ≡ write_number 2 bytes.old at }
    ensures lent { bytes.new ≡ write_out big 2 bytes.old at number }
{
    c_numbers::number(u16::write(number, bytes, at, big))
}

// Writes a number of 32 bits at `at`.
#[unsafe(no_mangle)]
pub extern "C" fn hullsift_write_u32(bytes: &mut [u8], at: usize, number: u32, big: bool) -> u8
    ensures answer { result ≡ write_number 4 bytes.old at }
    ensures lent { bytes.new ≡ write_out big 4 bytes.old at number }
{
    c_numbers::number(u32::write(number, bytes, at, big))
}

// Writes a number of 64 bits at `at`.
#[unsafe(no_mangle)]
pub extern "C" fn hullsift_write_u64(bytes: &mut [u8], at: usize, number: u64, big: bool) -> u8
    ensures answer { result ≡ write_number 8 bytes.old at }
    ensures lent { bytes.new ≡ write_out big 8 bytes.old at number }
{
    c_numbers::number(u64::write(number, bytes, at, big))
}

// Whether `width` bytes from `at` lie within `length` bytes.
#[unsafe(no_mangle)]
pub extern "C" fn hullsift_fits(length: usize, at: usize, width: usize) -> bool
    ensures answer { result ≡ fits_of length at width }
{
    fields::fits(length, at, width)
}

// The words for a number.
#[unsafe(no_mangle)]
pub extern "C" fn hullsift_words(number: u8, words: &mut [u8; 64])
    ensures values { words.new ≡ words_of number }
{
    *words = answer::words(number);
}

// A number that is read at a new cursor.
fn next<T: Unsigned + Numbers<1>>(bytes: &[u8], at: usize, big: bool) -> Result<Taken, Refusal>
    ensures { result ≡ next_of (λ n k. taken (get_or (T.numbers (T.of n)) 0 0) k) Err big T.WIDTH bytes.now at }
{
    let cursor = Cursor::new(at);
    let (value, place) = cursor.next::<T>(bytes, big)?;
    let [number] = value.numbers();
    Ok(Taken { number, place })
}
