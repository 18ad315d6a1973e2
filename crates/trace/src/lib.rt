// An event and its answer in words for a person. What an event is for the chips that it meets is defined (`Role`); the words for it are
// not.
#![tactic(auto)]

pub mod chips;
pub mod dropped;
pub mod ending;
mod refused;
pub mod role;
mod saying;
mod scene;
mod shown;
mod text;

ghost use Rattle.trace.specs.Plain.{Plain};

use crate::refused::say_refused;
use crate::role::role_of;
use crate::saying::say_done;
use crate::scene::Scene;
use crate::text::Words;
use base::word::BYTE;
use bus::Bus;
use decode::{addressed_of, event_of};
use std::fmt::Result;

// Room for the longest words.
pub const WORDS: usize = 160;

fn say(w: &mut Words, before: &Bus, after: &Bus, event: u16, answer: u16) -> Result {
    let asked = event_of(addressed_of(before.started, event));
    let value = (event % BYTE) as u8;
    let status = (answer / BYTE) as u8;
    let reply = (answer % BYTE) as u8;
    let role = role_of(asked, value as usize, before.count, before.chips);
    let scene = Scene::new(role, before, after, value, reply);
    if status == 0 {
        say_done(w, role.act, &scene)
    } else {
        say_refused(w, asked, status, &scene)
    }
}

// Puts the words for an event and its answer at the start of a buffer, and says how many bytes they are. `before` is the bus that the
// event met, `after` what it left. What is too long is cut, and no LF is put.
pub fn words(before: Bus, after: Bus, event: u16, answer: u16, out: &mut [u8]) -> usize
    ensures { Plain result out.new }
{
    let mut words = Words::new();
    // Words take no error: what is too long is cut.
    let _ = say(&mut words, &before, &after, event, answer);
    words.put_in(out)
}
