// A fat Mach-O file (mach-o/fat.h): opened, with every member checked; a member by its index; and its bytes.
#![tactic(auto)]

ghost use Rattle.std.specs.Prelude.{◌≡◌};
ghost use Rattle.fat_member.specs.FatArch.{Inside};
ghost use Rattle.fat.specs.Fat.{header_in, open_of, member_at_of, bytes_at_of, start_of};

use answer::{Reason, Refusal};
use cursor::Cursor;
use fat_member::FatArch;

// A member and the part of the file that it occupies, which may be empty.
// The answer stands beside the bytes, since a refusal has a part too: it is empty and starts where the file starts (5.12).
#[derive(Clone, Copy)]
pub struct FatArchBytes<'a> {
    pub arch: Result<FatArch, Refusal>,
    pub bytes: &'a [u8],
}

const HEADER: usize = 8;

const FAT_MAGIC: u32 = 0xCAFEBABE;

const MEMBER_LIMIT: u32 = 32;

// How many members the file has, all of them checked.
pub fn open(file: &[u8]) -> Result<u32, Refusal>
    ensures { result ≡ open_of file.now }
{
    let members = header(file)?;
    for index in 0..members {
        fat_member::read(file, HEADER + fat_member::SIZE * index as usize)?;
    }
    Ok(members)
}

// The member with that index, of a file that opens.
pub fn member_at(file: &[u8], index: usize) -> Result<FatArch, Refusal>
    ensures { result ≡ member_at_of file.now index }
{
    let members = open(file)?;
    if index < members as usize {
        return fat_member::read(file, HEADER + fat_member::SIZE * index);
    }
    Err(Reason::NotFound.into())
}

// The member with that index, and its bytes where they are in the file.
#[tactic(auto, using(crate::proofs::Laws::found_inside))]
pub fn bytes_at<'a>(file: &'a [u8], index: usize) -> FatArchBytes<'a>
    ensures { (result.arch ≡ member_at_of file.now index)
        × (result.bytes.now ≡ bytes_at_of file.now (member_at_of file.now index))
        × (result.bytes.ref_ptr ≡ start_of file.entry.ref_ptr (member_at_of file.now index)) }
{
    let arch = member_at(file, index);
    let bytes = slice(file, arch);
    FatArchBytes { arch, bytes }
}

// The part of the file that a member occupies.
fn slice(file: &[u8], arch: Result<FatArch, Refusal>) -> &[u8]
    requires { Inside file.now arch }
    ensures { (result.now ≡ bytes_at_of file.now arch) × (result.ref_ptr ≡ start_of file.entry.ref_ptr arch) }
{
    match arch {
        Ok(member) => {
            let from = member.offset as usize;
            let end = from + member.size as usize;
            &file[from..end]
        }
        Err(_) => &file[0..0],
    }
}

// How many members the header counts.
fn header(file: &[u8]) -> Result<u32, Refusal>
    ensures { result ≡ header_in file.now }
{
    if answer::FILE_LIMIT < file.len() {
        return Err(Reason::Limit.into());
    }
    let cursor = Cursor::new(0);
    let (magic, cursor) = cursor.next::<u32>(file, true)?;
    if magic != FAT_MAGIC {
        return Err(Reason::Magic.into());
    }
    let (count, _) = cursor.next(file, true)?;
    if MEMBER_LIMIT < count {
        return Err(Reason::Limit.into());
    }
    Ok(count)
}
