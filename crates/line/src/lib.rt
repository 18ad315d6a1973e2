// An event on the line: every chip that it reaches takes it, each on its own shares of the two stores.
#![tactic(auto)]

ghost use Rattle.std.specs.Prelude.{◌≡◌, true, ◌≤◌, ◌^◌};
ghost use Rattle.std.specs.List.{list_any};
ghost use Rattle.parts.specs.Part.{geometry_of};
ghost use Rattle.refusal.specs.Checks.{first_of};
ghost use Rattle.chip.specs.declared.Chip.{Chip};
ghost use Rattle.chip.specs.declared.event.Event.TheVariants as Event;
ghost use Rattle.chip.specs.Chip.{meets_nothing};
ghost use Rattle.decode.specs.Hearing.{clashes_with};
ghost use Rattle.decode.specs.Decode.{event_of};
ghost use Rattle.line.specs.Line.{not_busy, line_checks, hears, heard, share_ends, play, values_after, play_with, LeavesStores, LeavesAll, ReadsFrom, unanswered, line_reply};

use board::{PLACES, placed};
use chip::Chip;
use chip::event::Event;
use control::Said;
use control::phase::{Phase, is_busy, is_sending, is_taking};
use decode::hearing::{clashes_with, lacks_cycle};
use decode::{Addressed, event_of, reaches};
use load::PAGE_MOST;
use parts::part::geometry_of;
use refusal::Refusal;

// What the line carries when nobody speaks: to a byte read, and to every other event. Then the two words of a chip.
const IDLE: u8 = 0xFF;

const SILENCE: u8 = 0x00;

const ACKNOWLEDGE: u8 = 0x01;

const OCCUPIED: u8 = 0x02;

#[derive(Clone, Copy, Debug, PartialEq, Eq)]
pub struct Played {
    pub chips: [Chip; PLACES],
    pub said: Said,
}

// Refusal 12. A place past the last has no chip, so none that is busy; a step lets no such place through (7).
fn not_busy(addressed: Addressed, chips: [Chip; PLACES]) -> bool
    ensures { result ≡ not_busy addressed chips }
{
    match addressed {
        Addressed::ToAll(_) => false,
        Addressed::ToOne(named, event) => {
            let chip = chips.get(usize::from(named));
            lacks_cycle(event, chip.map_or(Phase::Standby, |c| c.control.phase))
        }
    }
}

// Refusal 8.
fn clash(event: Event, chips: &[Chip]) -> bool
    ensures { result ≡ list_any (λ (chip : Chip). clashes_with event chip.control.phase) chips.now }
{
    chips
        .iter()
        .any(|chip| clashes_with(event, chip.control.phase))
}

// Checks 12 and 8 of a step.
pub fn line_verdict(
    addressed: Addressed,
    count: usize,
    chips: [Chip; PLACES],
) -> Result<(), Refusal>
    ensures { result ≡ first_of (line_checks addressed count chips) }
{
    if not_busy(addressed, chips) {
        Err(Refusal::NotBusy)
    } else if clash(event_of(addressed), &chips[..placed(count)]) {
        Err(Refusal::Clash)
    } else {
        Ok(())
    }
}

// An acknowledge is heard over a chip that says it is busy.
fn heard(before: Said, said: Said) -> Said
    ensures { result ≡ heard before said }
{
    match (before, said) {
        (Said::Nothing, _) => said,
        (_, Said::Nothing | Said::Occupied) => before,
        (_, Said::Ack | Said::Byte(_)) => said,
    }
}

// Events that meet neither the stores nor the values: Start, power up, and those that name a chip. Four loops and not one: each is lent what its event
// meets, with a contract of its own (`LeavesAll`, `LeavesStores`, `play`, `ReadsFrom`), and one for all was slower (docs/SPEED.md).
fn move_each(addressed: Addressed, count: usize, mut chips: [Chip; PLACES]) -> Played
    requires { meets_nothing (event_of addressed) ≡ true }
    ensures { LeavesAll addressed count chips result }
{
    let event = event_of(addressed);
    for i in 0..placed(count) {
        if reaches(addressed, i) {
            chips[i] = chips[i].moved(event);
        }
    }
    Played {
        chips,
        said: Said::Nothing,
    }
}

// Whether a byte sent, the first after a Start or not, may mean something to a chip.
fn hears(first: bool, phase: Phase) -> bool
    ensures { result ≡ hears first phase }
{
    is_taking(phase) || (first && is_busy(phase))
}

// A byte sent means nothing to a chip that does not hear it.
fn take_each(
    addressed: Addressed,
    first: bool,
    byte: u8,
    count: usize,
    mut chips: [Chip; PLACES],
    values: &mut [u8; PAGE_MOST],
) -> Played
    requires { event_of addressed ≡ Event.Sent first byte }
    ensures { LeavesStores addressed count chips values.old result × (values.new ≡ values_after addressed count chips values.old) }
{
    let mut said = Said::Nothing;
    for i in 0..placed(count) {
        if reaches(addressed, i) && hears(first, chips[i].control.phase) {
            let stepped = chips[i].take(first, byte, values);
            chips[i] = stepped.chip;
            said = heard(said, stepped.said);
        }
    }
    Played { chips, said }
}

// Where a chip's share of each store ends, and the next chip's starts. They are cut at the stores' ends, so that stores of a wrong length are safe
// too; a step lets none through.
#[derive(Clone, Copy, Debug, PartialEq, Eq)]
struct Ends {
    array: usize,
    security: usize,
}

fn share_ends(chip: Chip, starts: Ends, array: usize, security: usize) -> Ends
    requires array_bound { starts.array ≤ 2 ^ 32 }
    requires security_bound { starts.security ≤ 2 ^ 32 }
    ensures { result ≡ share_ends (geometry_of chip.control.part) starts.array starts.security array security }
{
    let figures = geometry_of(chip.control.part);
    Ends {
        array: array.min(starts.array + figures.array as usize),
        security: security.min(starts.security + figures.security as usize),
    }
}

// A Stop: each chip stores to its own shares.
fn stop_each(
    addressed: Addressed,
    count: usize,
    mut chips: [Chip; PLACES],
    values: &[u8; PAGE_MOST],
    array: &mut [u8],
    security: &mut [u8],
) -> Played
    requires { event_of addressed ≡ Event.Stop }
    ensures { (result, array.new, security.new) ≡ play addressed count chips values.now array.old security.old }
{
    let mut starts = Ends {
        array: 0,
        security: 0,
    };
    for i in 0..placed(count) {
        let ends = share_ends(chips[i], starts, array.len(), security.len());
        if reaches(addressed, i) {
            chips[i] = chips[i].stop(
                values,
                &mut array[starts.array..ends.array],
                &mut security[starts.security..ends.security],
            );
        }
        starts = ends;
    }
    Played {
        chips,
        said: Said::Nothing,
    }
}

// A byte read: each chip sends from its own shares. It means nothing to a chip that sends none.
fn read_each(
    addressed: Addressed,
    nack: bool,
    count: usize,
    mut chips: [Chip; PLACES],
    array: &[u8],
    security: &[u8],
) -> Played
    requires { event_of addressed ≡ Event.Read nack }
    ensures { ReadsFrom addressed count chips array.now security.now result }
{
    let mut said = Said::Nothing;
    let mut starts = Ends {
        array: 0,
        security: 0,
    };
    for i in 0..placed(count) {
        let ends = share_ends(chips[i], starts, array.len(), security.len());
        if reaches(addressed, i) && is_sending(chips[i].control.phase) {
            let stepped = chips[i].read(
                &array[starts.array..ends.array],
                &security[starts.security..ends.security],
                nack,
            );
            chips[i] = stepped.chip;
            said = heard(said, stepped.said);
        }
        starts = ends;
    }
    Played { chips, said }
}

// What an event meets is asked once, outside the loop over the chips. Count and chips are apart: `play_with` and the theorems of demands 2 and 3 have
// them so.
pub fn play(
    addressed: Addressed,
    count: usize,
    chips: [Chip; PLACES],
    values: &mut [u8; PAGE_MOST],
    array: &mut [u8],
    security: &mut [u8],
) -> Played
    ensures { ((result, array.new, security.new), values.new) ≡ play_with addressed count chips values.old array.old security.old }
{
    match event_of(addressed) {
        Event::Stop => stop_each(addressed, count, chips, values, array, security),
        Event::Sent(first, byte) => take_each(addressed, first, byte, count, chips, values),
        Event::Read(nack) => read_each(addressed, nack, count, chips, array, security),
        Event::Start | Event::Wp(_) | Event::CycleOver | Event::PowerUp => {
            move_each(addressed, count, chips)
        }
    }
}

fn unanswered(event: Event) -> u8
    ensures { result ≡ unanswered event }
{
    if matches!(event, Event::Read(_)) {
        IDLE
    } else {
        SILENCE
    }
}

pub fn line_reply(event: Event, said: Said) -> u8
    ensures { result ≡ line_reply event said }
{
    match said {
        Said::Nothing => unanswered(event),
        Said::Ack => ACKNOWLEDGE,
        Said::Occupied => OCCUPIED,
        Said::Byte(byte) => byte,
    }
}
