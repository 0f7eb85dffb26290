// A member of a fat Mach-O file (struct fat_arch), read and checked.
#![tactic(auto)]

ghost use Rattle.std.specs.Prelude.{◌≡◌};
ghost use Rattle.fat_member.specs.FatArch.{fat_arch, read_of};
ghost use Rattle.fat_member.specs.Answers.{numbers_of};

use answer::{Numbers, Reason, Refusal};
use cursor::Cursor;

// The bytes that a member takes in the table.
pub const SIZE: usize = 20;

// The offset and the size have 64 bits, though the fields have 32.
#[derive(Clone, Copy, Debug, PartialEq, Eq)]
pub struct FatArch {
    pub cputype: u32,
    // Without its top 8 bits, which are `caps`.
    pub cpusubtype: u32,
    pub caps: u8,
    pub offset: u64,
    pub size: u64,
    pub align: u32,
    pub is_64: bool,
}

impl Numbers<7> for FatArch {
    ghost numbers = { numbers_of };

    fn numbers(self) -> [u64; 7] {
        [
            self.cputype.into(),
            self.cpusubtype.into(),
            self.caps.into(),
            self.offset,
            self.size,
            self.align.into(),
            self.is_64.into(),
        ]
    }
}

// The member at `at`. The bytes are taken for the whole file, in which the member must end; their own length is not checked.
pub fn read(file: &[u8], at: usize) -> Result<FatArch, Refusal>
    ensures { result ≡ read_of fat_arch file.now at }
{
    let cursor = Cursor::new(at);
    let (cputype, cursor) = cursor.next::<u32>(file, true)?;
    let (cpusubtype, cursor) = cursor.next::<u32>(file, true)?;
    let (offset, cursor) = cursor.next::<u32>(file, true)?;
    let (size, cursor) = cursor.next::<u32>(file, true)?;
    // The sum may have more than 32 bits.
    if !fields::fits(file.len(), offset as usize, size as usize) {
        return Err(Reason::PastFile.into());
    }
    let (align, _) = cursor.next(file, true)?;
    Ok(FatArch {
        cputype,
        cpusubtype: cpusubtype % 0x01000000,
        caps: (cpusubtype / 0x01000000) as u8,
        offset: offset.into(),
        size: size.into(),
        align,
        is_64: cputype / 0x01000000 % 2 == 1,
    })
}
