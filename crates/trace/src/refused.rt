// An event that was refused, in words: its name, and why it was refused.
use crate::scene::Scene;
use crate::text::Words;
use chip::event::Event;
use refusal::Refusal;
use std::fmt::{Result, Write};

fn event_name(event: Event) -> &'static str {
    match event {
        Event::Start => "Start",
        Event::Stop => "Stop",
        Event::Sent(_, _) => "byte",
        Event::Read(_) => "read",
        Event::Wp(false) => "WP low",
        Event::Wp(true) => "WP high",
        Event::CycleOver => "write cycle over",
        Event::PowerUp => "power up",
    }
}

// Which values are allowed.
fn values_text(event: Event) -> &'static str {
    match event {
        Event::Start | Event::Stop | Event::PowerUp => ", the value is not 00",
        Event::Sent(_, _) => "",
        Event::Read(_) => ", the value is neither 00 nor 01",
        Event::Wp(_) | Event::CycleOver => ", there is no such chip",
    }
}

// Who is in the way.
fn say_clash(w: &mut Words, event: Event, scene: &Scene) -> Result {
    match event {
        Event::Sent(_, _) => write!(w, ", {} is sending", scene.chip),
        Event::Read(_) => write!(w, ", {} taking bytes", scene.taking),
        _ => Ok(()),
    }
}

// Where the kind is none, the event has no name.
pub fn say_refused(w: &mut Words, event: Event, status: u8, scene: &Scene) -> Result {
    let is = |refusal: Refusal| status == u8::from(refusal);
    if is(Refusal::UnknownKind) {
        return write!(
            w,
            "no event: refused ({status:02X}), the kind is not 01 to 08"
        );
    }
    write!(w, "{}: refused ({status:02X})", event_name(event))?;
    if is(Refusal::WrongValue) {
        write!(w, "{}", values_text(event))
    } else if is(Refusal::Clash) {
        say_clash(w, event, scene)
    } else if is(Refusal::NotBusy) {
        write!(w, ", {} is not busy", scene.chip)
    } else {
        Ok(())
    }
}
