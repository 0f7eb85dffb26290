// The symbol version table as a struct that holds its part of the file, as goblin's does. Each function over it takes it apart and
// calls the function of `versym` on the bytes; `get_at_of` has plain parameters, so that a caller of it needs no proof by hand.
#![tactic(auto)]

ghost use Rattle.std.specs.Prelude.{◌≡◌};
ghost use Rattle.versym.specs.Versym.{count_in_of, get_at_in_of};

use answer::Refusal;
use version_section::CountEntries;
use versym::Versym;

#[derive(Clone, Copy)]
pub struct VersymSection<'a> {
    pub bytes: &'a [u8],
    pub big: bool,
}

pub fn new<'a>(bytes: &'a [u8], big: bool) -> VersymSection<'a>
    ensures { (result.bytes ≡ bytes.entry) × (result.big ≡ big) }
{
    VersymSection { bytes, big }
}

impl<'a> VersymSection<'a> {
    // How many entries there are.
    pub fn len(self) -> CountEntries
        ensures { result ≡ count_in_of self.entry.bytes.now }
    {
        versym::count_in(self.bytes)
    }

    // The entry at `index`.
    pub fn get_at(self, index: usize) -> Result<Versym, Refusal>
        ensures { result ≡ get_at_in_of self.entry.big self.entry.bytes.now index }
    {
        versym::get_at_in(self.bytes, index, self.big)
    }
}

// The entry at `index` of a section's bytes.
pub fn get_at_of(bytes: &[u8], big: bool, index: usize) -> Result<Versym, Refusal>
    ensures { result ≡ get_at_in_of big bytes.now index }
{
    new(bytes, big).get_at(index)
}
