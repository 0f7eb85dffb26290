// The answers of every door: why one refuses, the refusal that readers hand on unchanged, and the words for each number.
#![tactic(auto)]

ghost use Rattle.std.specs.Prelude.{◌≡◌, ℕ, ◌+◌, List, Some};
ghost use Rattle.answer.specs.Answer.{alone, refuse_of, cut_of, beyond_of, number_of};
ghost use Rattle.answer.specs.Words.{words_of, shown_of};

use std::error::Error;
use std::{fmt, str};

// Why a door refuses. The number of each is its place in this list, from 1 on.
#[derive(Clone, Copy, Debug, PartialEq, Eq, Hash)]
pub enum Reason {
    Short,
    Magic,
    Limit,
    Contradiction,
    NoSection,
    Version,
    Operation,
    Links,
    Order,
    NotFound,
    NotStrict,
    Stack,
    Room,
    PastFile,
    Machine,
}

// What a door that refuses hands back. It has no number 0: that is the number of what is accepted.
#[derive(Clone, Copy, Debug, PartialEq, Eq, Hash)]
pub struct Refusal {
    pub reason: Reason,
}

impl Error for Refusal {}

// A refusal is shown by the words for its number, with no spaces after them.
impl fmt::Display for Refusal {
    ghost output = { λ k. Some (shown_of k) };

    fn fmt<W: fmt::Write>(&self, f: &mut fmt::Formatter<W>) -> fmt::Result {
        let row = words((*self).into());
        f.write_str(str::from_utf8(&row).unwrap_or("").trim_end())
    }
}

// Every refusal is made here, but for those of missing bytes.
impl From<Reason> for Refusal {
    ghost from_gives = { λ why k. k ≡ refuse_of why };

    fn from(reason: Reason) -> Refusal {
        Refusal { reason }
    }
}

// The number of a refusal, never 0.
impl From<Refusal> for u8 {
    ghost from_gives = { λ k n. n ≡ number_of k };

    fn from(refusal: Refusal) -> u8 {
        match refusal.reason {
            Reason::Short => 1,
            Reason::Magic => 2,
            Reason::Limit => 3,
            Reason::Contradiction => 4,
            Reason::NoSection => 5,
            Reason::Version => 6,
            Reason::Operation => 7,
            Reason::Links => 8,
            Reason::Order => 9,
            Reason::NotFound => 10,
            Reason::NotStrict => 11,
            Reason::Stack => 12,
            Reason::Room => 13,
            Reason::PastFile => 14,
            Reason::Machine => 15,
        }
    }
}

// What a door accepts, as the numbers that it stands for.
pub trait Numbers<const N: usize>: Copy {
    ghost numbers: { Self → List ℕ };

    fn numbers(self) -> [u64; N]
        ensures { result ≡ numbers self };
}

impl Numbers<1> for u8 {
    ghost numbers = { alone };

    fn numbers(self) -> [u64; 1] {
        [self.into()]
    }
}

impl Numbers<1> for u16 {
    ghost numbers = { alone };

    fn numbers(self) -> [u64; 1] {
        [self.into()]
    }
}

impl Numbers<1> for u32 {
    ghost numbers = { alone };

    fn numbers(self) -> [u64; 1] {
        [self.into()]
    }
}

impl Numbers<1> for u64 {
    ghost numbers = { alone };

    fn numbers(self) -> [u64; 1] {
        [self]
    }
}

// The longest file that a door takes, in bytes.
pub const FILE_LIMIT: usize = 268_435_456;

const ANSWERS: usize = 16;

// The refusal where the bytes end before a field of `width` bytes at `at` does.
#[tactic(auto, using(crate::proofs::Laws::cut_within, crate::proofs::Laws::cut_beyond))]
pub fn cut(at: usize, width: usize) -> Refusal
    ensures { result ≡ cut_of (at + width) }
{
    if usize::MAX - width < at {
        return beyond();
    }
    Refusal {
        reason: Reason::Short,
    }
}

// The refusal where something is missing that no more bytes would bring: a field past 64 bits, or slots past their count.
#[tactic(auto, unfolding(crate::specs::Answer::beyond_of))]
pub fn beyond() -> Refusal
    ensures { result ≡ beyond_of }
{
    Reason::Short.into()
}

// The words for a number, filled up with spaces; for a number above the last, the row after it.
pub fn words(number: u8) -> [u8; 64]
    ensures { result ≡ words_of number }
{
    let at = number as usize;
    if at < ANSWERS {
        WORDS[at]
    } else {
        WORDS[ANSWERS]
    }
}

const WORDS: [[u8; 64]; 17] = [
    *b"accepted                                                        ",
    *b"the bytes end before a needed field                             ",
    *b"wrong magic or signature                                        ",
    *b"a limit is passed                                               ",
    *b"a size or count contradicts its table                           ",
    *b"the address lies in no section                                  ",
    *b"the unwind version is not 1 or 2                                ",
    *b"unknown operation, or bad operation info                        ",
    *b"more than 32 links                                              ",
    *b"the runtime table is not ordered                                ",
    *b"not found                                                       ",
    *b"not a strict prolog                                             ",
    *b"a stack word is out of reach, or an address leaves 64 bits      ",
    *b"the output is too small                                         ",
    *b"a fat member reaches past the file                              ",
    *b"the machine is not x64                                          ",
    *b"no such answer                                                  ",
];
