// What is pending in a conversation: the event that is to be played next, if there is one.
ghost use Rattle.std.specs.Prelude.{◌+◌, ◌≤◌, ◌≡◌, length};
ghost use Rattle.base.specs.Store.{patched};
ghost use Rattle.std.specs.List.{list_all};
ghost use Rattle.transcript.specs.Digit.{is_digit};
ghost use Rattle.transcript.specs.Frame.{frame_at};
ghost use Rattle.print.specs.Print.{printed_bytes};
ghost use Rattle.conversation.specs.Talk.{unfinished};
ghost use Rattle.conversation.specs.Pending.{has_room, paused, pending_by, pending_at, next_pending, heard_of, finished};

use crate::Heard;
use print::{PRINTED_BYTES, closing, printed};
use refusal::{Refusal, answer_word};
use transcript::digit::digit_value;
use transcript::frame::{FRAME_BYTES, Frame, MALFORMED};

#[derive(Clone, Copy, Debug, PartialEq, Eq)]
pub struct Pending {
    pub event: Option<u16>,
    pub at: usize,
    pub written: usize,
    pub over: bool,
}

impl From<Pending> for Heard {
    ghost from_gives = { λ pending heard. heard ≡ heard_of pending };

    fn from(pending: Pending) -> Heard
        ensures { result ≡ heard_of pending }
    {
        Heard {
            used: pending.at,
            written: pending.written,
            over: pending.over,
        }
    }
}

fn paused(at: usize, written: usize) -> Pending
    ensures { result ≡ paused at written }
{
    Pending {
        event: None,
        at,
        written,
        over: false,
    }
}

fn has_room(said: &[u8], written: usize) -> bool
    ensures { result ≡ has_room said.now written }
{
    PRINTED_BYTES <= said.len() && written <= said.len() - PRINTED_BYTES
}

fn is_digit(byte: u8) -> bool
    ensures { result ≡ is_digit byte }
{
    digit_value(byte).is_some()
}

fn all_digits(text: &[u8]) -> bool
    ensures { result ≡ list_all is_digit text.now }
{
    text.iter().all(|&byte| is_digit(byte))
}

// Whether the bytes from a place on may still become a line: fewer than a line has, and all digits.
fn is_unfinished(text: &[u8], at: usize) -> bool
    requires { at ≤ length text.now }
    ensures { result ≡ unfinished text.now at }
{
    let left = &text[at..];
    left.len() < FRAME_BYTES && all_digits(left)
}

// A line or the answer to one, in its place.
fn put(line: [u8; PRINTED_BYTES], said: &mut [u8], written: usize)
    requires { written + printed_bytes ≤ length said.old }
    ensures { said.new ≡ patched written line said.old }
{
    said[written..written + PRINTED_BYTES].copy_from_slice(&line);
}

// No line stands at the place. What may still become one waits for more.
fn pending_without_frame(text: &[u8], at: usize, said: &mut [u8], written: usize) -> Pending
    requires at_in_bounds { at ≤ length text.now }
    requires printed_bytes_in_bounds { written + printed_bytes ≤ length said.old }
    ensures { (result, said.new) ≡ pending_by Frame.Malformed text.now at said.old written }
{
    if is_unfinished(text, at) {
        return paused(at, written);
    }
    put(closing(MALFORMED), said, written);
    Pending {
        event: None,
        at: text.len(),
        written: written + PRINTED_BYTES,
        over: true,
    }
}

// What is pending at a place of the text, where the reader found a frame.
#[tactic(auto, unfolding(crate::specs::Pending::pending_at))]
pub fn pending_at(frame: Frame, text: &[u8], at: usize, said: &mut [u8], written: usize) -> Pending
    requires { frame ≡ frame_at text.now at }
    ensures { (result, said.new) ≡ pending_at text.now at said.old written }
{
    if !has_room(said, written) {
        return paused(at, written);
    }
    match frame {
        Frame::Event(event, next) => Pending {
            event: Some(event),
            at: next,
            written,
            over: false,
        },
        Frame::Malformed => pending_without_frame(text, at, said, written),
        Frame::End => paused(at, written),
    }
}

// The answer to the event is noted, and what stands at the place after it is pending: the reader's next frame.
#[tactic(auto, unfolding(crate::specs::Pending::next_pending))]
pub fn next_pending(
    pending: Pending,
    event: u16,
    answer: Result<u8, Refusal>,
    frame: Frame,
    text: &[u8],
    said: &mut [u8],
) -> Pending
    requires { frame ≡ frame_at text.now pending.at }
    ensures { (result, said.new) ≡ next_pending text.now pending event answer said.old }
{
    let Pending { at, written, .. } = pending;
    if !has_room(said, written) {
        return paused(at, written);
    }
    put(printed(event, answer_word(answer)), said, written);
    pending_at(frame, text, at, said, written + PRINTED_BYTES)
}

// The text has ended: a line that is left of it is malformed.
#[tactic(auto, unfolding(crate::specs::Pending::finished))]
pub fn finish(heard: Heard, text: &[u8], said: &mut [u8]) -> Heard
    ensures { (result, said.new) ≡ finished text.now heard said.old }
{
    if text.len() <= heard.used || !has_room(said, heard.written) {
        return heard;
    }
    put(closing(MALFORMED), said, heard.written);
    Heard {
        used: text.len(),
        written: heard.written + PRINTED_BYTES,
        over: true,
    }
}
