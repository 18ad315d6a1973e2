// How a run can end before its text does, told on standard error.
use errands::telling::{errors, tell_failure, write_name};
use fault::{Fault, fault_of};
use std::fmt;
use std::io::{Error, Result, Write};
use transcript::frame::MALFORMED;

// What is wrong with a line, in words.
#[derive(Clone, Copy)]
struct Wrong(Option<Fault>);

impl fmt::Display for Wrong {
    fn fmt<W: fmt::Write>(&self, f: &mut fmt::Formatter<W>) -> fmt::Result {
        f.write_str(match self.0 {
            None => "malformed",
            Some(Fault::EmptyLine) => "an empty line",
            Some(Fault::TooShort) => "too short",
            Some(Fault::LowerCase) => "a lower-case digit",
            Some(Fault::ReturnByte) => "a CR",
            Some(Fault::BlankByte) => "a blank",
            Some(Fault::NoDigit) => "no digit 0-9 A-F",
            Some(Fault::TooLong) => "too long",
            Some(Fault::Unended) => "no LF at the end",
        })
    }
}

fn write_malformed(to: &mut impl Write, text: &[u8], line: u64) -> Result<()> {
    write_name(to, b"standard input")?;
    writeln!(to, "line {line}: {} ({MALFORMED})", Wrong(fault_of(text)))
}

// The line that ended the run, all the text from its place on.
pub fn tell_malformed(rt: &HostRuntime, text: &[u8], line: u64) {
    let _ = write_malformed(&mut errors(rt), text, line);
}

// Why a call failed, and how far the run came.
pub fn tell_broken(rt: &HostRuntime, what: &[u8], error: Error, lines: u64) {
    tell_failure(rt, what, error);
    let unit = if lines == 1 { "line" } else { "lines" };
    let _ = writeln!(errors(rt), "bench: broken off after {lines} {unit}");
}
