// What the three version sections share: the part of a file that a section is, and how many entries there are in one.
#![tactic(auto)]

ghost use Rattle.std.specs.Prelude.{◌≡◌};
ghost use Rattle.version_section.specs.Section.{lent_of};
ghost use Rattle.version_section.specs.Answers.{entries_of};

use answer::Refusal;

// How many entries a section or a list has.
#[derive(Clone, Copy, Debug, PartialEq, Eq)]
pub enum CountEntries {
    // All of it is entries.
    Whole(usize),
    // The entries before bytes that are none: the answer is 1 with their number, and it is no refusal.
    Cut(usize),
}

impl CountEntries {
    // How many there are, whatever is after them.
    pub fn entries(self) -> usize
        ensures { result ≡ entries_of self }
    {
        match self {
            CountEntries::Whole(entries) | CountEntries::Cut(entries) => entries,
        }
    }
}

// The section of `size` bytes from `start`, where it is in the file.
pub fn section(file: &[u8], start: usize, size: usize) -> Result<&[u8], Refusal>
    ensures { result ≡ lent_of file.entry start size }
{
    if !fields::fits(file.len(), start, size) {
        return Err(answer::cut(start, size));
    }
    Ok(&file[start..start + size])
}
