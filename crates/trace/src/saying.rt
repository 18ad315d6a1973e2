// An event that was done, in words: what it was, and what came of it.
use crate::chips::is_register_byte;
use crate::dropped::Dropped;
use crate::ending::{Ending, Reason, Run, Stored};
use crate::role::Act;
use crate::scene::Scene;
use crate::shown::{Count, Spot};
use crate::text::Words;
use control::phase::{Came, Data, Phase, Source, Word, is_busy};
use parts::part::geometry_of;
use std::fmt::{Result, Write};

// The replies to a byte sent.
const ACKNOWLEDGED: u8 = 1;

const OCCUPIED: u8 = 2;

fn say_unchosen(w: &mut Words, scene: &Scene) -> Result {
    if scene.chosen.is_any() && !scene.still_chosen.is_any() {
        write!(w, ", {} chosen no more", scene.chosen)?;
    }
    Ok(())
}

fn say_dropped(w: &mut Words, dropped: Dropped, scene: &Scene) -> Result {
    match dropped {
        Dropped::Nothing => Ok(()),
        Dropped::Bytes(count) => write!(w, ", {} drops {}", scene.chip, Count(count)),
        Dropped::ConfigurationBytes => write!(w, ", {} drops its configuration bytes", scene.chip),
        Dropped::LockCommand => write!(w, ", {} drops its lock command", scene.chip),
    }
}

fn say_start(w: &mut Words, dropped: Dropped, scene: &Scene) -> Result {
    write!(w, "Start: {} awaiting an address byte", scene.awaiting)?;
    if scene.busy.is_any() {
        write!(w, ", {} busy", scene.busy)?;
    }
    if scene.chosen.is_any() {
        write!(w, ", {} chosen", scene.chosen)?;
    }
    say_dropped(w, dropped, scene)
}

fn say_power_up(w: &mut Words, dropped: Dropped, scene: &Scene) -> Result {
    write!(w, "power up: all chips on standby, counters 0")?;
    if scene.busy.is_any() {
        write!(w, ", {} busy no more", scene.busy)?;
    }
    say_unchosen(w, scene)?;
    say_dropped(w, dropped, scene)
}

fn reason_text(reason: Reason) -> &'static str {
    match reason {
        Reason::NoAddress => "no word address",
        Reason::NoData => "no data",
        Reason::Protected => "protected",
        Reason::ReadOnly => "read-only half",
        Reason::IdLocked => "ID page locked",
        Reason::ConfigurationLocked => "configuration locked",
        Reason::NotThree => "not three bytes",
        Reason::NotConfirmed => "not confirmed",
        Reason::Nowhere => "data for nowhere",
    }
}

fn say_run(w: &mut Words, run: Run, spot: Spot, scene: &Scene) -> Result {
    let round = if run.round { ", round its page" } else { "" };
    write!(
        w,
        "Stop: {} stores {} at {spot}{round}, busy",
        scene.chip,
        Count(run.count)
    )
}

fn say_stored(w: &mut Words, stored: Stored, scene: &Scene) -> Result {
    match stored {
        Stored::InArray(run) => say_run(w, run, Spot::InArray(run.first), scene),
        Stored::InSecurity(run) => say_run(w, run, Spot::InSecurity(run.first), scene),
        Stored::Configuration(_, _) => write!(
            w,
            "Stop: {} stores its configuration, busy",
            scene.chip
        ),
        Stored::IdLock => write!(w, "Stop: {} locks its ID page, busy", scene.chip),
    }
}

fn say_stop(w: &mut Words, ending: Ending, scene: &Scene) -> Result {
    match ending {
        Ending::Idle => write!(w, "Stop")?,
        Ending::ReadEnds => write!(w, "Stop: {} sends no more", scene.chip)?,
        Ending::Stores(stored) => say_stored(w, stored, scene)?,
        Ending::StoresNothing(reason) => write!(
            w,
            "Stop: {} stores nothing ({})",
            scene.chip,
            reason_text(reason),
        )?,
    }
    say_unchosen(w, scene)
}

fn say_f8(w: &mut Words, scene: &Scene) -> Result {
    write!(w, "identification, F8: ")?;
    if scene.reply == ACKNOWLEDGED {
        write!(w, "acknowledged, {} awaiting the choice", scene.awaiting)?;
    } else {
        write!(w, "not acknowledged (no chip that awaits it has an ID)")?;
    }
    say_unchosen(w, scene)
}

fn say_f9(w: &mut Words, scene: &Scene) -> Result {
    write!(w, "identification, F9: ")?;
    if scene.reply == ACKNOWLEDGED {
        write!(w, "acknowledged, {} sends its ID", scene.chip)
    } else {
        write!(w, "not acknowledged (no chip is chosen)")
    }
}

// Of what an address byte asks, reading or writing.
fn form_text(value: u8) -> &'static str {
    match (is_register_byte(value), value % 2 == 1) {
        (false, false) => "write",
        (false, true) => "read",
        (true, false) => "registers, write",
        (true, true) => "registers, read",
    }
}

// What an address byte has a chip do: a write has nothing yet.
fn say_addressed(w: &mut Words, scene: &Scene) -> Result {
    let left = scene.left.control;
    let Phase::SendsByte(source) = left.phase else {
        return Ok(());
    };
    match source {
        Source::FromArray => write!(w, ", sends from {}", Spot::array(left)),
        Source::FromSecurity => write!(w, ", sends from {}", Spot::security(left)),
        Source::FromConfiguration(_) => write!(w, ", sends its configuration"),
        Source::FromId(_) => write!(w, ", sends its ID"),
        Source::FromNothing => write!(w, ", sends FF from nowhere"),
    }
}

// A chip whose address it is does not acknowledge it where it has no registers, or was busy when the Start came.
fn silence_text(value: u8, part: u8) -> &'static str {
    if is_register_byte(value) && !geometry_of(part).registers {
        "it has no registers"
    } else {
        "it heard no Start"
    }
}

fn say_address_outcome(w: &mut Words, scene: &Scene) -> Result {
    match scene.reply {
        ACKNOWLEDGED => {
            write!(w, "acknowledged")?;
            say_addressed(w, scene)
        }
        OCCUPIED => write!(w, "busy"),
        _ => write!(
            w,
            "not acknowledged ({})",
            silence_text(scene.value, scene.met.control.part),
        ),
    }
}

fn say_address(w: &mut Words, scene: &Scene) -> Result {
    if scene.chip.is_none() {
        write!(
            w,
            "address {:02X}, no chip has it: not acknowledged",
            scene.value
        )?;
    } else {
        write!(
            w,
            "address {} ({}), {}: ",
            scene.chip,
            scene.part(),
            form_text(scene.value)
        )?;
        say_address_outcome(w, scene)?;
    }
    say_unchosen(w, scene)
}

// Why a chip is not chosen whose address it is.
fn unchosen_text(scene: &Scene) -> &'static str {
    let met = scene.met.control;
    if !geometry_of(met.part).identifies {
        "it has no ID"
    } else if is_busy(met.phase) {
        "it is busy"
    } else {
        "it heard no Start"
    }
}

fn say_choice(w: &mut Words, scene: &Scene) -> Result {
    if scene.chip.is_none() {
        return write!(
            w,
            "choice of {:02X}, no 1010 address of a chip: not acknowledged",
            scene.value
        );
    }
    write!(w, "choice of {} ({}): ", scene.chip, scene.part())?;
    if scene.reply == ACKNOWLEDGED {
        write!(w, "acknowledged")
    } else {
        write!(w, "not acknowledged ({})", unchosen_text(scene))
    }
}

// Only a lock command on a locked page is not acknowledged.
fn taken_text(reply: u8) -> &'static str {
    if reply == ACKNOWLEDGED {
        "acknowledged"
    } else {
        "not acknowledged (its ID page is locked)"
    }
}

// What a word address names once it is whole.
fn say_named(w: &mut Words, scene: &Scene) -> Result {
    let left = scene.left.control;
    let Phase::TakesData(kind) = left.phase else {
        return Ok(());
    };
    match kind {
        Data::ToArray => write!(w, ", counter at {}", Spot::array(left)),
        Data::ToSecurity => write!(w, ", counter at {}", Spot::security(left)),
        Data::ToConfiguration(_) => write!(w, ", names its configuration"),
        Data::ToLock(_) => write!(w, ", names the lock of its ID page"),
        Data::ToNowhere => write!(w, ", names nothing"),
    }
}

fn say_word_byte(w: &mut Words, word: Word, scene: &Scene) -> Result {
    let which = match word {
        Word::ArrayFirst(_) | Word::RegisterFirst => "first",
        Word::ArraySecond(_, _) | Word::RegisterSecond(_) => "second",
    };
    write!(
        w,
        "{which} address byte for {}: {}",
        scene.chip,
        taken_text(scene.reply)
    )?;
    say_named(w, scene)
}

// The next byte for the configuration register.
fn came_text(came: Came) -> &'static str {
    match came {
        Came::Zero => "configuration byte 0",
        Came::One(_) => "configuration byte 1",
        Came::Two(_, _) => "confirmation byte",
        Came::Three(_, _, _) | Came::More => "one byte too many",
    }
}

fn say_data_byte(w: &mut Words, kind: Data, scene: &Scene) -> Result {
    let met = scene.met.control;
    let taken = taken_text(scene.reply);
    let loaded = Count(scene.left.span.count);
    write!(w, "data for {}, ", scene.chip)?;
    match kind {
        Data::ToArray => write!(w, "{}: {taken}, {loaded} loaded", Spot::array(met)),
        Data::ToSecurity => write!(w, "{}: {taken}, {loaded} loaded", Spot::security(met)),
        Data::ToConfiguration(came) => write!(w, "{}: {taken}", came_text(came)),
        Data::ToLock(_) => write!(w, "lock of its ID page: {taken}"),
        Data::ToNowhere => write!(w, "nowhere: {taken}"),
    }
}

fn read_text(value: u8) -> &'static str {
    if value == 0 {
        "read, acknowledged by the host: "
    } else {
        "read, not acknowledged by the host: "
    }
}

fn say_read_from(w: &mut Words, source: Source, scene: &Scene) -> Result {
    let met = scene.met.control;
    write!(
        w,
        "{}{} sends {:02X}",
        read_text(scene.value),
        scene.chip,
        scene.reply
    )?;
    match source {
        Source::FromArray => write!(w, " from {}", Spot::array(met)),
        Source::FromSecurity => write!(w, " from {}", Spot::security(met)),
        Source::FromConfiguration(second) => write!(w, ", configuration byte {}", u8::from(second)),
        Source::FromId(place) => write!(w, ", ID byte {}", place.min(2)),
        Source::FromNothing => write!(w, " from nowhere"),
    }
}

pub fn say_done(w: &mut Words, act: Act, scene: &Scene) -> Result {
    match act {
        Act::Start(dropped) => say_start(w, dropped, scene),
        Act::Stop(ending) => say_stop(w, ending, scene),
        Act::HostF8 => say_f8(w, scene),
        Act::HostF9 => say_f9(w, scene),
        Act::Address => say_address(w, scene),
        Act::Choice => say_choice(w, scene),
        Act::WordByte(word) => say_word_byte(w, word, scene),
        Act::DataByte(kind) => say_data_byte(w, kind, scene),
        Act::ForSender | Act::ForNobody => write!(w, "byte for nobody: not acknowledged"),
        Act::ReadFrom(source) => say_read_from(w, source, scene),
        Act::ReadFromNobody => write!(w, "{}nobody sends", read_text(scene.value)),
        Act::Wp(level) => write!(
            w,
            "WP of {} {}",
            scene.chip,
            if level { "high" } else { "low" }
        ),
        Act::CycleOver => write!(w, "write cycle of {} over", scene.chip),
        Act::PowerUp(dropped) => say_power_up(w, dropped, scene),
    }
}
