// Loading: a text is read record by record into one chip's array, twice: once to check it whole, once to store it (request E1).
ghost use Rattle.std.specs.Prelude.{◌<◌, ◌≤◌, ◌≡◌, length, not, is_ok};
ghost use Rattle.image.specs.Reading.{said_by, reads_on, upper_after, next_reading, scanned, verdict_of};
ghost use Rattle.image.specs.Storing.{next_storing, stored};
ghost use Rattle.image.specs.Load.{load_share, load};

use crate::share::share_of;
use bus::Bus;
use hexline::checks::record_verdict;
use hexline::fields::{DATA, END, UPPER, kind_in, line_size, put_data, upper_in};
use refusal::Refusal;

// Why a text is not loaded, with the line at fault: 1 for the first, 0 where nothing of the text is.
#[derive(Clone, Copy, Debug, PartialEq, Eq)]
pub struct LoadError {
    pub refusal: Refusal,
    // 0 and no Option: `load_line` has it so.
    pub line: usize,
}

// Whether a reading goes on: three cases, so neither an Option nor a Result.
#[derive(Clone, Copy, Debug, PartialEq, Eq)]
pub enum Progress {
    // No record was the end, and none was refused.
    Open,
    // The last record was the end.
    Ended,
    // The next record is refused.
    Refused(Refusal),
}

impl Progress {
    fn is_refused(self) -> bool
        ensures { result ≡ not (is_ok (said_by self)) }
    {
        matches!(self, Progress::Refused(_))
    }
}

// The place of the next record, the upper 16 address bits in force, how many records were read, and whether it goes on.
#[derive(Clone, Copy, Debug, PartialEq, Eq)]
pub struct Reading {
    pub at: usize,
    pub upper: u16,
    pub lines: usize,
    pub progress: Progress,
}

// Nothing is read yet.
const BEGUN: Reading = Reading {
    at: 0,
    upper: 0,
    lines: 0,
    progress: Progress::Open,
};

fn reads_on(text: &[u8], reading: Reading) -> bool
    ensures { result ≡ reads_on text.now reading }
{
    matches!(reading.progress, Progress::Open) && reading.at < text.len()
}

// Upper address bits stand until a record of type 04 gives others.
fn upper_after(rest: &[u8], upper: u16) -> u16
    ensures { result ≡ upper_after rest.now upper }
{
    if kind_in(rest) == UPPER {
        upper_in(rest)
    } else {
        upper
    }
}

// Past the record that is to be read, or stopped at it.
fn next_reading(text: &[u8], size: usize, reading: Reading) -> Reading
    requires { (reading.at < length text.now) × (reading.lines ≤ reading.at) }
    ensures { result ≡ next_reading size text.now reading }
{
    let rest = &text[reading.at..];
    match record_verdict(rest, size, reading.upper) {
        Err(refusal) => Reading {
            progress: Progress::Refused(refusal),
            ..reading
        },
        Ok(()) => Reading {
            at: reading.at + line_size(rest),
            upper: upper_after(rest, reading.upper),
            lines: reading.lines + 1,
            progress: if kind_in(rest) == END {
                Progress::Ended
            } else {
                Progress::Open
            },
        },
    }
}

// Checks a text as far as it goes.
fn scan(text: &[u8], size: usize) -> Reading
    ensures { result ≡ scanned size text.now }
{
    let mut reading = BEGUN;
    while reads_on(text, reading) {
        reading = next_reading(text, size, reading);
    }
    reading
}

// 24 comes last.
fn verdict_of(text: &[u8], reading: Reading) -> Result<(), Refusal>
    ensures { result ≡ verdict_of text.now reading }
{
    match reading.progress {
        Progress::Refused(refusal) => Err(refusal),
        Progress::Ended if reading.at == text.len() => Ok(()),
        _ => Err(Refusal::NoEnd),
    }
}

// The same record in the second walk: it is stored if it is one of data.
fn next_storing(text: &[u8], share: &mut [u8], reading: Reading) -> Reading
    requires { (reading.at < length text.now) × (reading.lines ≤ reading.at) }
    ensures { (result, share.new) ≡ next_storing (length share.old) text.now (reading, share.old) }
{
    let next = next_reading(text, share.len(), reading);
    let rest = &text[reading.at..];
    if !next.progress.is_refused() && kind_in(rest) == DATA {
        put_data(rest, reading.upper, share);
    }
    next
}

// The loop of `scan`, which stores: one for both would take a closure over the lent share, for three lines.
fn store_all(text: &[u8], share: &mut [u8])
    ensures { share.new ≡ stored text.now share.old }
{
    let mut reading = BEGUN;
    while reads_on(text, reading) {
        reading = next_storing(text, share, reading);
    }
}

// Loads one chip's share.
fn load_share(text: &[u8], share: &mut [u8]) -> Result<(), LoadError>
    ensures { (result, share.new) ≡ load_share text.now share.old }
{
    let reading = scan(text, share.len());
    let line = reading.lines + 1;
    verdict_of(text, reading).map_err(|refusal| LoadError { refusal, line })?;
    store_all(text, share);
    Ok(())
}

// Reads a text into the array of a chip. It is checked whole before any byte is stored.
pub fn load(
    bus: Bus,
    array: &mut [u8],
    security: &[u8],
    chip: usize,
    text: &[u8],
) -> Result<(), LoadError>
    ensures { (result, array.new) ≡ load bus array.old security.now chip text.now }
{
    bus.chip_verdict(array, security, chip)
        .map_err(|refusal| LoadError { refusal, line: 0 })?;
    load_share(text, &mut array[share_of(bus, chip)])
}
