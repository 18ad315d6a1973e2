// Standard input and output, read and written with patience: a signal may interrupt a call, and a descriptor may be set not to wait.
// No contract can say what a descriptor gives or takes, only that what came fits the room. Of a reader or a writer whose bytes are
// known, as one over memory, the contracts name them.
#![tactic(auto)]

ghost use Rattle.std.specs.Prelude.{◌≡◌, ◌≤◌, length, take, OnOk};
ghost use Rattle.std.specs.Io.KnownBytes.{Appends, Consumes};
ghost use Rattle.stream.specs.Came.{size_of, Counts};
ghost use Rattle.stream.specs.Front.{AppendsFront};

use std::io;
use std::io::{Error, ErrorKind, Read, Write};
use std::thread::sleep;
use std::time::{Clock, Duration};

// What came of one call: so many bytes, at the start of what was lent; nothing yet, to be asked again; or the end: three
// cases, since nothing yet is not the end.
#[derive(Clone, Copy, Debug, PartialEq, Eq)]
pub enum Came {
    Bytes(usize),
    Nothing,
    Ended,
}

// How long a pause is.
const PAUSE_MILLISECONDS: u64 = 1;

// Gives whoever is at the other end time.
fn pause(clock: &impl Clock) {
    sleep(clock, Duration::from_millis(PAUSE_MILLISECONDS));
}

// What is to be made of a failure. A call that a signal interrupted is asked again at once, one that would wait after a pause.
fn failed(clock: &impl Clock, error: Error) -> io::Result<Came>
    ensures { size_of result ≡ 0 }
{
    match error.kind() {
        ErrorKind::WouldBlock => {
            pause(clock);
            Ok(Came::Nothing)
        }
        ErrorKind::Interrupted => Ok(Came::Nothing),
        _ => Err(error),
    }
}

// What a read or a write of these bytes has answered.
fn came_of(clock: &impl Clock, answer: io::Result<usize>, lent: &[u8]) -> io::Result<Came>
    ensures fits { size_of result ≤ length lent.now }
    ensures counted { Counts answer (length lent.now) (size_of result) }
{
    match answer {
        Ok(0) => Ok(Came::Ended),
        Ok(size) => Ok(Came::Bytes(size.min(lent.len()))),
        Err(error) => failed(clock, error),
    }
}

// One read. Where no room is lent nothing comes, which is not the end: a caller that asks again lends some. What came stands at the
// room's start, and is gone from what is left to be read.
pub fn read_some<R: Read>(clock: &impl Clock, from: &mut R, room: &mut [u8]) -> io::Result<Came>
    ensures fits { size_of result ≤ length room.new }
    ensures bytes { Consumes (R.remaining from.old) (R.remaining from.new) (take (size_of result) room.new) }
{
    if room.is_empty() {
        return Ok(Came::Nothing);
    }
    let answer = from.read(room);
    came_of(clock, answer, room)
}

// Writes all of the text, however often a write takes only a part of it. If not, a write failed, and the error tells why; or it took
// nothing, as none to a file, a pipe or a terminal does. Nothing says that a descriptor ever takes anything, so a count of tries falls,
// from more than any run uses up.
pub fn write_on<W: Write>(clock: &impl Clock, to: &mut W, text: &[u8]) -> io::Result<()>
    ensures all { OnOk result (Appends (W.contents to.old) (W.contents to.new) text.now) }
    ensures part { AppendsFront (W.contents to.old) (W.contents to.new) text.now }
{
    let mut done: usize = 0;
    let mut tries = u64::MAX;
    while done < text.len() {
        let Some(left) = tries.checked_sub(1) else {
            return Err(Error::from(ErrorKind::TimedOut));
        };
        tries = left;
        let rest = &text[done..];
        match came_of(clock, to.write(rest), rest)? {
            Came::Bytes(taken) => done += taken,
            Came::Nothing => {}
            Came::Ended => return Err(Error::from(ErrorKind::WriteZero)),
        }
    }
    Ok(())
}

// A writer that is written to with patience.
#[derive(Drop)]
pub struct Patient<'a, C, W> {
    clock: &'a C,
    to: W,
}

impl<'a, C: Clock, W: Write> Patient<'a, C, W> {
    pub fn new(clock: &'a C, to: W) -> Self {
        Self { clock, to }
    }
}

impl<C: Clock, W: Write> Write for Patient<'_, C, W> {
    fn write(&mut self, text: &[u8]) -> io::Result<usize> {
        write_on(self.clock, &mut self.to, text)?;
        Ok(text.len())
    }

    fn flush(&mut self) -> io::Result<()> {
        self.to.flush()
    }
}
