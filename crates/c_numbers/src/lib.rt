// What the crates of the C interface share: the answer of a door, as the number and the values that C is handed.
#![tactic(auto)]

ghost use Rattle.std.specs.Prelude.{◌≡◌, []};
ghost use Rattle.answer.specs.Answer.{answer_of, number, values};

use answer::{Numbers, Refusal};

// Stores the values of an answer, zeros where it is refused, and returns its number.
pub fn store<T: Numbers<N>, const N: usize>(a: Result<T, Refusal>, out: &mut [u64; N]) -> u8
    ensures answer { result ≡ number (answer_of T.numbers a) }
    ensures values { out.new ≡ values N (answer_of T.numbers a) }
{
    match a {
        Ok(t) => {
            *out = t.numbers();
            0
        }
        Err(k) => {
            out.fill(0);
            k.into()
        }
    }
}

// The number of an answer that has no values.
pub fn number(a: Result<(), Refusal>) -> u8
    ensures { result ≡ number (answer_of (λ u. []) a) }
{
    match a {
        Ok(()) => 0,
        Err(k) => k.into(),
    }
}
