// What is wrong with a line of a transcript (paper, "The transcript"): lower-case digits, CR LF and a missing last LF are everybody's
// first mistakes, and FFFF0900 names none of them.
#![tactic(auto)]

ghost use Rattle.std.specs.Prelude.{◌≡◌, length, take, take_while};
ghost use Rattle.std.specs.Option.{is_some};
ghost use Rattle.transcript.specs.Digit.{digit_value};
ghost use Rattle.fault.specs.Fault.{is_lower_case, is_blank, digits_in, fault_among, fault_after, fault_behind, fault_of};

use transcript::digit::digit_value;
use transcript::frame::LF;

#[derive(Clone, Copy, Debug, PartialEq, Eq)]
pub enum Fault {
    EmptyLine,
    TooShort,
    LowerCase,
    // A CR: lines end in LF alone.
    ReturnByte,
    BlankByte,
    NoDigit,
    TooLong,
    // The text ends before the line's LF.
    Unended,
}

const LINE_DIGITS: usize = 4;

const CR: u8 = 13;

const TAB: u8 = 9;

fn is_lower_case(byte: u8) -> bool
    ensures { result ≡ is_lower_case byte }
{
    matches!(byte, b'a'..=b'f')
}

fn is_blank(byte: u8) -> bool
    ensures { result ≡ is_blank byte }
{
    matches!(byte, b' ' | TAB)
}

// How many digits the line begins with, at most four.
fn digits_in(line: &[u8]) -> usize
    ensures { result ≡ length (take_while (λ b. is_some (digit_value b)) (take 4 line.now)) }
{
    line.iter()
        .take(LINE_DIGITS)
        .take_while(|byte| digit_value(**byte).is_some())
        .count()
}

// A byte that is no digit, where there should be one.
fn fault_among(digits: usize, byte: u8) -> Fault
    ensures { result ≡ fault_among digits byte }
{
    match byte {
        LF if digits == 0 => Fault::EmptyLine,
        LF => Fault::TooShort,
        CR => Fault::ReturnByte,
        _ if is_lower_case(byte) => Fault::LowerCase,
        _ if is_blank(byte) => Fault::BlankByte,
        _ => Fault::NoDigit,
    }
}

// The byte after four digits.
fn fault_after(byte: u8) -> Option<Fault>
    ensures { result ≡ fault_after byte }
{
    match byte {
        LF => None,
        CR => Some(Fault::ReturnByte),
        _ => Some(Fault::TooLong),
    }
}

// By the number of digits at the start of the line.
fn fault_behind(digits: usize, line: &[u8]) -> Option<Fault>
    ensures { result ≡ fault_behind digits line.now }
{
    if line.len() <= digits {
        Some(Fault::Unended)
    } else if digits < LINE_DIGITS {
        Some(fault_among(digits, line[digits]))
    } else {
        fault_after(line[digits])
    }
}

// Of the line at the start of a text: none where it is four digits and LF. The first byte that is wrong decides.
pub fn fault_of(line: &[u8]) -> Option<Fault>
    ensures { result ≡ fault_of line.now }
{
    fault_behind(digits_in(line), line)
}
