// Prints what the file that argument 1 names is.
#![tactic(auto)]

ghost use Rattle.std.specs.Prelude.{◌≡◌, OnOk};

use answer::Refusal;
use fat_member::FatArch;
use fields::Unsigned;
use std::env::FillError;
use std::fs::File;
use std::io::{ErrorKind, Read, Seek, SeekFrom, Write};
use std::process::ExitCode;
use std::rt::Env;
use std::{io, str};

// The longest file that is read, in bytes.
const MOST: u64 = 268435456;

// The bytes of a page of output: more than the longest report has, which lists 32 members.
const PAGE: usize = 8192;

// The first bytes of a fat Mach-O file, and of a DOS header.
const FAT_MAGIC: u32 = 0xCAFEBABE;

const DOS_SIGNATURE: u16 = 0x5A4D;

// Text for standard output, gathered so that a report is one write; a page that is full is written out and begun again.
#[derive(Drop)]
struct Page<'a, P> {
    to: &'a P,
    text: [u8; PAGE],
    length: usize,
}

impl<P: Print> Write for Page<'_, P> {
    // Takes as many of the bytes as there is room for.
    fn write(&mut self, bytes: &[u8]) -> io::Result<usize> {
        if self.length >= PAGE {
            self.flush()?;
        }
        let mut room = &mut self.text[self.length..];
        let taken = room.write(bytes)?;
        self.length += taken;
        Ok(taken)
    }

    fn flush(&mut self) -> io::Result<()>
        ensures { OnOk result (self.new.length ≡ 0) }
    {
        let length = self.length.min(PAGE);
        self.to.write_all(&self.text[..length])?;
        self.length = 0;
        Ok(())
    }
}

// All that is said of a file, by its bytes.
fn report(rt: &impl Print, s: &[u8]) -> io::Result<()> {
    let mut page = Page {
        to: rt,
        text: [0; PAGE],
        length: 0,
    };
    report_file(&mut page, s)?;
    page.flush()
}

fn report_file(page: &mut impl Write, s: &[u8]) -> io::Result<()> {
    writeln!(page, "bytes {}", s.len())?;
    if u32::read(s, 0, true) == Ok(FAT_MAGIC) {
        report_fat(page, s)
    } else if u16::read(s, 0, false) == Ok(DOS_SIGNATURE) {
        writeln!(page, "DOS or PE, by its signature")
    } else {
        writeln!(page, "neither fat Mach-O nor PE, by its first bytes")
    }
}

fn report_fat(page: &mut impl Write, s: &[u8]) -> io::Result<()> {
    writeln!(page, "fat Mach-O")?;
    match fat::open(s) {
        Ok(count) => {
            writeln!(page, "members {count}")?;
            for index in 0..count {
                match fat::member_at(s, index as usize) {
                    Ok(member) => report_member(page, index, member)?,
                    Err(refusal) => report_refusal(page, refusal)?,
                }
            }
            Ok(())
        }
        Err(refusal) => report_refusal(page, refusal),
    }
}

fn report_member(page: &mut impl Write, index: u32, member: FatArch) -> io::Result<()> {
    let bits = if member.is_64 { " 64-bit" } else { "" };
    writeln!(
        page,
        "member {index}: cputype 0x{:08x} cpusubtype 0x{:06x} capabilities 0x{:02x} offset {} size {} align 2^{}{bits}",
        member.cputype, member.cpusubtype, member.caps, member.offset, member.size, member.align
    )
}

// A refusal, by its number and in words.
fn report_refusal(page: &mut impl Write, refusal: Refusal) -> io::Result<()> {
    writeln!(page, "refused {}: {refusal}", u8::from(refusal))
}

// A line on standard error, and the status of a program that failed.
fn fail(rt: &impl Eprint, words: &str) -> ExitCode {
    let _ = rt.eprintln(words);
    ExitCode::FAILURE
}

// The same, of what failed and why.
fn fail_by(rt: &(impl Eprint + AllocGlobal), what: &str, why: &io::Error) -> ExitCode {
    let Ok(text) = why.to_string(rt.alloc()) else {
        return fail(rt, "hullsift: out of memory");
    };
    let words = system_words(text.as_str());
    let _ = eprintln!(rt; "{what}: {words}");
    ExitCode::FAILURE
}

// The system's words in the text of an error, which ends in " (os error N)" where they stand in it.
fn system_words(text: &str) -> &str {
    match text.split_once(" (os error ") {
        Some((words, _)) => words,
        None => text,
    }
}

// How long a file is, by the place of its end.
fn length(file: &mut File) -> io::Result<u64> {
    let end = file.seek(SeekFrom::End(0))?;
    file.rewind()?;
    Ok(end)
}

// The most bytes that are read of a file of that length: it may be a device that has no end and says 0.
fn room(length: u64) -> u64 {
    if length <= 6291456 {
        6291456
    } else if length <= 67108864 {
        67108864
    } else {
        MOST
    }
}

fn dump(rt: &(impl Print + Eprint + AllocGlobal), path: &str, mut file: File) -> ExitCode {
    let Ok(length) = length(&mut file) else {
        return fail(rt, "hullsift: not a file with a size");
    };
    if length > MOST {
        return fail(rt, "hullsift: refused 3: more than 268435456 bytes");
    }
    // One byte more than the length, so that the read that finds the end finds room.
    let Ok(mut bytes) = Vec::with_capacity(rt.alloc(), length as usize + 1) else {
        return fail(rt, "hullsift: out of memory");
    };
    // Where a read fails, what was read before it is reported all the same.
    let read = file.take(room(length)).read_to_end(&mut bytes);
    if let Err(e) = &read {
        if e.kind() == ErrorKind::OutOfMemory {
            return fail(rt, "hullsift: out of memory");
        }
    }
    if let Err(e) = report(rt, &bytes) {
        return fail_by(rt, "hullsift: standard output", &e);
    }
    match read {
        Ok(_) => ExitCode::SUCCESS,
        Err(e) => fail_by(rt, path, &e),
    }
}

fn main(rt: HostRuntime) -> ExitCode {
    let mut word = [0u8; 4096];
    let length = match rt.arg(1, &mut word) {
        Ok(n) => n,
        Err(FillError::NotPresent) => return fail(&rt, "hullsift: path: Invalid argument"),
        Err(FillError::TooLong) => return fail(&rt, "hullsift: path: File name too long"),
    };
    let Ok(path) = str::from_utf8(&word[..length]) else {
        return fail(&rt, "hullsift: path: not UTF-8");
    };
    match File::open(&rt, path) {
        Ok(file) => dump(&rt, path, file),
        Err(e) => fail_by(&rt, path, &e),
    }
}
