// A conversation over a transcript: the lines of a text are answered one after the other by a bus that is lent (paper, "The transcript").
#![tactic(auto)]

mod pending;
pub mod tape;

ghost use Rattle.std.specs.Prelude.{◌≡◌};
ghost use Rattle.conversation.specs.Talk.{converse};
ghost use Rattle.conversation.specs.Whole.{answer_all};

use crate::pending::{finish, next_pending, pending_at};
use bus::Bus;
use inplace::step_in_place;
use reader::Reader;

// How much of a text was used, how much was said, and whether a malformed line has ended the run.
#[derive(Clone, Copy, Debug, Default, PartialEq, Eq)]
pub struct Heard {
    pub used: usize,
    pub written: usize,
    // The counts stand whether it is over or not, and `finished` has it so.
    pub over: bool,
}

// The bus that is lent, as it stands. A function, since a call's result is known to be a value of its type, and `*bus` is not.
fn as_lent(bus: &Bus) -> Bus
    ensures { result ≡ bus.now }
{
    *bus
}

// Answers a text, as far as `said` has room. A last line that is unfinished is left, unless it cannot become one.
pub fn converse(
    bus: &mut Bus,
    array: &mut [u8],
    security: &mut [u8],
    text: &[u8],
    said: &mut [u8],
) -> Heard
    ensures { (result, bus.new, array.new, security.new, said.new) ≡ converse text.now bus.old array.old security.old said.old }
{
    // Asked once: a step leaves it as it was.
    let entry = as_lent(bus).entry_verdict(array, security);
    // One reader goes through the text, from its first line to its last.
    let mut reader = Reader::new(text);
    let mut pending = pending_at(reader.next(), text, 0, said, 0);
    while let Some(event) = pending.event {
        let answer = step_in_place(bus, entry, array, security, event);
        pending = next_pending(pending, event, answer, reader.next(), text, said);
    }
    Heard::from(pending)
}

// A whole transcript, on a bus that serves for nothing else.
#[tactic(auto, unfolding(crate::specs::Whole::answer_all))]
pub fn answer_all(
    mut bus: Bus,
    array: &mut [u8],
    security: &mut [u8],
    text: &[u8],
    said: &mut [u8],
) -> Heard
    ensures { (result, array.new, security.new, said.new) ≡ answer_all text.now bus array.old security.old said.old }
{
    let heard = converse(&mut bus, array, security, text, said);
    finish(heard, text, said)
}
