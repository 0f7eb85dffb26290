// A record of the function table (`RuntimeFunction`), read from lent bytes and written into them.
#![tactic(auto)]

ghost use Rattle.std.specs.Prelude.{◌≡◌};
ghost use Rattle.fields.specs.Field.{write_of};
ghost use Rattle.runtime_function.specs.RuntimeFunction.{numbers_of, read_of, write_out};

use answer::{Numbers, Reason, Refusal};
use cursor::Cursor;
use fields::Unsigned;

pub const SIZE: usize = 12;

#[derive(Clone, Copy, Debug, PartialEq, Eq)]
pub struct RuntimeFunction {
    pub begin: u32,
    pub end: u32,
    pub unwind: u32,
}

impl Numbers<3> for RuntimeFunction {
    ghost numbers = { numbers_of };

    fn numbers(self) -> [u64; 3] {
        [self.begin.into(), self.end.into(), self.unwind.into()]
    }
}

pub fn read(s: &[u8], at: usize) -> Result<RuntimeFunction, Refusal>
    ensures { result ≡ read_of s.now at }
{
    let cursor = Cursor::new(at);
    let (begin, cursor) = cursor.next(s, false)?;
    let (end, cursor) = cursor.next(s, false)?;
    let (unwind, _) = cursor.next(s, false)?;
    Ok(RuntimeFunction { begin, end, unwind })
}

pub fn write(out: &mut [u8], at: usize, e: RuntimeFunction) -> Result<(), Refusal>
    ensures { (result ≡ write_of 12 out.old at) × (out.new ≡ write_out out.old at e) }
{
    if fields::fits(out.len(), at, SIZE) {
        e.begin.write(out, at, false)?;
        e.end.write(out, at + 4, false)?;
        e.unwind.write(out, at + 8, false)?;
        return Ok(());
    }
    Err(Reason::Room.into())
}
