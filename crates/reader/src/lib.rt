// The reader carries the transcript it was lent and its place in it (paper, "The transcript").
#![tactic(auto)]

ghost use Rattle.std.specs.Prelude.{◌≡◌};
ghost use Rattle.transcript.specs.Frame.{meaning};
ghost use Rattle.reader.specs.Reader.{from_start, Answered};

use transcript::frame::{Frame, frame_at};

#[derive(Clone, Copy, Debug, PartialEq, Eq)]
pub struct Reader<'a> {
    pub text: &'a [u8],
    pub at: usize,
}

// The place after an answer that was given at a place: past an event's line, and where it was otherwise.
fn place_after(frame: Frame, at: usize) -> usize
    ensures { result ≡ (meaning frame at).place }
{
    match frame {
        Frame::Event(_, next) => next,
        Frame::Malformed | Frame::End => at,
    }
}

impl<'a> Reader<'a> {
    pub fn new(text: &'a [u8]) -> Self
        ensures { result ≡ from_start text.entry }
    {
        Self { text, at: 0 }
    }

    // Answers, and moves on where it stands: past an event's line; 9 and the end leave the place.
    pub fn next(&mut self) -> Frame
        ensures { Answered self.old result self.new }
    {
        let frame = frame_at(self.text, self.at);
        self.at = place_after(frame, self.at);
        frame
    }
}
