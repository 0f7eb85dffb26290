// A place in lent bytes, by value: each read hands back the number and the place past it, or the refusal of the field.
#![tactic(auto)]

ghost use Rattle.std.specs.Prelude.{◌≡◌};
ghost use Rattle.cursor.specs.Next.{new_of, next_of, taken};

use answer::Refusal;
use fields::Unsigned;

#[derive(Clone, Copy, Debug, PartialEq, Eq, Hash)]
pub struct Cursor {
    pub at: usize,
}

impl Cursor {
    pub fn new(at: usize) -> Self
        ensures { result ≡ new_of at }
    {
        Cursor { at }
    }

    pub fn next<T: Unsigned>(self, s: &[u8], big: bool) -> Result<(T, Cursor), Refusal>
        ensures { result ≡ next_of (λ n k. taken (T.of n) k) Err big T.WIDTH s.now self.at }
    {
        let number = T::read(s, self.at, big)?;
        let next = Cursor {
            at: self.at + T::WIDTH,
        };
        Ok((number, next))
    }
}
