// Numbers of 8, 16, 32 and 64 bits at an offset of lent bytes, in either order: read, and written. Every function answers on
// every input; an offset plus a width never wraps.
#![tactic(auto)]

ghost use Rattle.std.specs.Prelude.{◌≡◌, ℕ, length, refl};
ghost use Rattle.fields.specs.Field.{bytes_at_of, fits_of, read_of, stored, write_of, write_out};

use answer::{Reason, Refusal};

// A number as a file spells it.
pub trait Unsigned: Copy {
    // The bytes that it takes.
    ghost WIDTH: { ℕ };

    // A number as a value of the type, and back.
    ghost of: { ℕ → Self };

    ghost value: { Self → ℕ };

    const WIDTH: usize;

    // The number at an offset, the most significant byte first where the order is big.
    fn read(s: &[u8], at: usize, big: bool) -> Result<Self, Refusal>
        ensures { result ≡ read_of (λ n. Ok (of n)) Err big WIDTH s.now at };

    fn write(self, out: &mut [u8], at: usize, big: bool) -> Result<(), Refusal>
        ensures { (result ≡ write_of WIDTH out.old at) × (out.new ≡ write_out big WIDTH out.old at (value self)) };

    ghost of_value: { (x : Self) → of (value x) ≡ x };
}

// Whether `width` bytes from `at` lie within `len` bytes.
pub fn fits(len: usize, at: usize, width: usize) -> bool
    ensures { result ≡ fits_of len at width }
{
    width <= len && at <= len - width
}

// The bytes of a field.
fn bytes_at<const N: usize>(s: &[u8], at: usize) -> Result<[u8; N], Refusal>
    ensures { result ≡ bytes_at_of N s.now at }
{
    if fits(s.len(), at, N) {
        let mut bytes = [0; N];
        bytes.copy_from_slice(&s[at..at + N]);
        return Ok(bytes);
    }
    Err(answer::cut(at, N))
}

fn put_bytes(out: &mut [u8], at: usize, bytes: &[u8]) -> Result<(), Refusal>
    ensures { (result ≡ write_of (length bytes.now) out.old at) × (out.new ≡ stored out.old at bytes.now) }
{
    if fits(out.len(), at, bytes.len()) {
        out[at..at + bytes.len()].copy_from_slice(bytes);
        return Ok(());
    }
    Err(Reason::Room.into())
}

impl Unsigned for u8 {
    ghost WIDTH = { 1 };

    ghost of = { λ n. n };

    ghost value = { λ n. n };

    const WIDTH: usize = 1;

    fn read(s: &[u8], at: usize, _big: bool) -> Result<u8, Refusal> {
        let [byte] = bytes_at::<1>(s, at)?;
        Ok(byte)
    }

    fn write(self, out: &mut [u8], at: usize, _big: bool) -> Result<(), Refusal> {
        put_bytes(out, at, &[self])
    }

    ghost of_value = { λ n. refl };
}

impl Unsigned for u16 {
    ghost WIDTH = { 2 };

    ghost of = { λ n. n };

    ghost value = { λ n. n };

    const WIDTH: usize = 2;

    fn read(s: &[u8], at: usize, big: bool) -> Result<u16, Refusal> {
        let bytes = bytes_at::<2>(s, at)?;
        if big {
            Ok(u16::from_be_bytes(bytes))
        } else {
            Ok(u16::from_le_bytes(bytes))
        }
    }

    fn write(self, out: &mut [u8], at: usize, big: bool) -> Result<(), Refusal> {
        if big {
            put_bytes(out, at, &u16::to_be_bytes(self))
        } else {
            put_bytes(out, at, &u16::to_le_bytes(self))
        }
    }

    ghost of_value = { λ n. refl };
}

impl Unsigned for u32 {
    ghost WIDTH = { 4 };

    ghost of = { λ n. n };

    ghost value = { λ n. n };

    const WIDTH: usize = 4;

    fn read(s: &[u8], at: usize, big: bool) -> Result<u32, Refusal> {
        let bytes = bytes_at::<4>(s, at)?;
        if big {
            Ok(u32::from_be_bytes(bytes))
        } else {
            Ok(u32::from_le_bytes(bytes))
        }
    }

    fn write(self, out: &mut [u8], at: usize, big: bool) -> Result<(), Refusal> {
        if big {
            put_bytes(out, at, &u32::to_be_bytes(self))
        } else {
            put_bytes(out, at, &u32::to_le_bytes(self))
        }
    }

    ghost of_value = { λ n. refl };
}

impl Unsigned for u64 {
    ghost WIDTH = { 8 };

    ghost of = { λ n. n };

    ghost value = { λ n. n };

    const WIDTH: usize = 8;

    fn read(s: &[u8], at: usize, big: bool) -> Result<u64, Refusal> {
        let bytes = bytes_at::<8>(s, at)?;
        if big {
            Ok(u64::from_be_bytes(bytes))
        } else {
            Ok(u64::from_le_bytes(bytes))
        }
    }

    fn write(self, out: &mut [u8], at: usize, big: bool) -> Result<(), Refusal> {
        if big {
            put_bytes(out, at, &u64::to_be_bytes(self))
        } else {
            put_bytes(out, at, &u64::to_le_bytes(self))
        }
    }

    ghost of_value = { λ n. refl };
}
