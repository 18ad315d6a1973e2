// What goes wrong is told on standard error. Where that takes nothing there is nowhere else to tell it.
use refusal::Refusal;
use std::io::{Cursor, Error, Write};
use std::{fmt, io};
use stream::write_on;

// Standard error. A part of a message that cannot be written is lost, and the next part is written all the same.
#[derive(Clone, Copy)]
pub struct Told<'a>(&'a HostRuntime);

impl Write for Told<'_> {
    fn write(&mut self, text: &[u8]) -> io::Result<usize> {
        let _ = write_on(self.0, &mut self.0.stderr(), text);
        Ok(text.len())
    }

    fn flush(&mut self) -> io::Result<()> {
        Ok(())
    }
}

pub fn errors(rt: &HostRuntime) -> Told<'_> {
    Told(rt)
}

// The program's name, and what it speaks of.
pub fn write_name(to: &mut impl Write, name: &[u8]) -> io::Result<()> {
    to.write_all(b"bench: ")?;
    to.write_all(name)?;
    to.write_all(b": ")
}

// A refusal in words, where it is one of a board or a file.
#[derive(Clone, Copy)]
struct Reason(Refusal);

impl fmt::Display for Reason {
    fn fmt<W: fmt::Write>(&self, f: &mut fmt::Formatter<W>) -> fmt::Result {
        f.write_str(match self.0 {
            Refusal::UnknownPart => "a part other than 1, 2, 3",
            Refusal::StrapOutside => "a strap outside its part's range",
            Refusal::SharedAddress => "two chips match one address byte",
            Refusal::BadRecord => "bad digit or length",
            Refusal::WrongSum => "wrong checksum",
            Refusal::UnknownType => "unknown record type",
            Refusal::PastArray => "address past the array",
            Refusal::NoEnd => "no end record, or text after it",
            Refusal::WrongValue => "there is no such chip",
            _ => "refused",
        })
    }
}

fn write_refusal(
    to: &mut impl Write,
    name: &[u8],
    line: usize,
    refusal: Refusal,
) -> io::Result<()> {
    write_name(to, name)?;
    if 0 < line {
        write!(to, "line {line}: ")?;
    }
    writeln!(to, "{} ({})", Reason(refusal), u8::from(refusal))
}

// With the line of the file, where one is at fault.
pub fn tell_refusal(rt: &HostRuntime, name: &[u8], line: usize, refusal: Refusal) {
    let _ = write_refusal(&mut errors(rt), name, line, refusal);
}

fn write_no_page(to: &mut impl Write, word: &[u8], refusal: Refusal) -> io::Result<()> {
    write_name(to, word)?;
    writeln!(
        to,
        "there is no such chip, store or page ({})",
        u8::from(refusal)
    )
}

pub fn tell_no_page(rt: &HostRuntime, word: &[u8], refusal: Refusal) {
    let _ = write_no_page(&mut errors(rt), word, refusal);
}

fn write_too_long(to: &mut impl Write, name: &[u8], most: usize) -> io::Result<()> {
    write_name(to, name)?;
    writeln!(to, "too long (more than {most} bytes)")
}

pub fn tell_too_long(rt: &HostRuntime, name: &[u8], most: usize) {
    let _ = write_too_long(&mut errors(rt), name, most);
}

// The most bytes of a reason.
const REASON: usize = 320;

// What stands behind a reason of C's: its number, which is not told.
const NUMBER: &str = " (os error ";

fn write_error(to: &mut impl Write, error: Error) -> io::Result<()> {
    let mut reason = Cursor::new([0u8; REASON]);
    let _ = write!(reason, "{error}");
    let n = (reason.position() as usize).min(REASON);
    let bytes = reason.into_inner();
    match std::str::from_utf8(&bytes[..n]) {
        Ok(text) => match text.split_once(NUMBER) {
            Some((words, _)) => to.write_all(words.as_bytes()),
            None => to.write_all(text.as_bytes()),
        },
        Err(_) => Ok(()),
    }
}

fn write_failure(to: &mut impl Write, name: &[u8], error: Error) -> io::Result<()> {
    write_name(to, name)?;
    write_error(to, error)?;
    to.write_all(b"\n")
}

// Why a call failed.
pub fn tell_failure(rt: &HostRuntime, name: &[u8], error: Error) {
    let _ = write_failure(&mut errors(rt), name, error);
}
