// What an event is for the chips that it meets (paper, "Events and replies"), and which chip it is for.
ghost use Rattle.std.specs.Prelude.{◌≡◌};
ghost use Rattle.trace.specs.Role.{role_as, address_role, choice_role, byte_act, read_act, role_of};

use crate::chips::{Test, chip_at, is_array_byte, who};
use crate::dropped::{Dropped, dropped_of};
use crate::ending::{Ending, ending_of};
use board::PLACES;
use chip::Chip;
use chip::event::Event;
use control::phase::{Data, Phase, Source, Word};

// What the event is, and the number of the chip that it is for, if there is one.
#[derive(Clone, Copy, Debug, PartialEq, Eq)]
pub struct Role {
    pub chip: Option<usize>,
    pub act: Act,
}

#[derive(Clone, Copy, Debug, PartialEq, Eq)]
pub enum Act {
    // It breaks off what the host's partner was at.
    Start(Dropped),
    // It ends that.
    Stop(Ending),
    // Address bytes: F8h; F9h, for the chip that is chosen; any other, for the chip whose address it is.
    HostF8,
    HostF9,
    Address,
    // The byte after F8h, for the chip whose 1010 address it is.
    Choice,
    // A byte for the host's partner.
    WordByte(Word),
    DataByte(Data),
    // A byte sent that nobody takes, while the partner is sending and while there is none.
    ForSender,
    ForNobody,
    // A byte read from the host's partner, and from nobody.
    ReadFrom(Source),
    ReadFromNobody,
    // For the chip that the event names.
    Wp(bool),
    CycleOver,
    // It breaks off what the host's partner was at.
    PowerUp(Dropped),
}

const F8: u8 = 0xF8;

const F9: u8 = 0xF9;

impl Role {
    fn new(chip: Option<usize>, act: Act) -> Role
        ensures { result ≡ role_as chip act }
    {
        Role { chip, act }
    }
}

// The first byte after a Start.
fn address_role(byte: u8, count: usize, chips: [Chip; PLACES]) -> Role
    ensures { result ≡ address_role byte count chips }
{
    match byte {
        F8 => Role::new(None, Act::HostF8),
        F9 => Role::new(who(Test::Chosen, count, chips), Act::HostF9),
        _ => Role::new(who(Test::HasAddress(byte), count, chips), Act::Address),
    }
}

fn choice_role(byte: u8, count: usize, chips: [Chip; PLACES]) -> Role
    ensures { result ≡ choice_role byte count chips }
{
    if is_array_byte(byte) {
        Role::new(who(Test::HasAddress(byte), count, chips), Act::Choice)
    } else {
        Role::new(None, Act::Choice)
    }
}

// A byte sent, by the phase of the host's partner.
fn byte_act(phase: Phase) -> Act
    ensures { result ≡ byte_act phase }
{
    match phase {
        Phase::AwaitsWord(word) => Act::WordByte(word),
        Phase::TakesData(kind) => Act::DataByte(kind),
        Phase::SendsByte(_) => Act::ForSender,
        _ => Act::ForNobody,
    }
}

// And a byte read.
fn read_act(phase: Phase) -> Act
    ensures { result ≡ read_act phase }
{
    match phase {
        Phase::SendsByte(source) => Act::ReadFrom(source),
        _ => Act::ReadFromNobody,
    }
}

// `named` is the chip that events 05 to 07 name. Who awaits a byte that is not the first after a Start awaits the one after F8h.
#[tactic(auto, unfolding(crate::specs::Role::role_of))]
pub fn role_of(event: Event, named: usize, count: usize, chips: [Chip; PLACES]) -> Role
    ensures { result ≡ role_of event named count chips }
{
    let partner = who(Test::Partner, count, chips);
    let met = chip_at(chips, partner);
    let phase = met.control.phase;
    let is_awaited = who(Test::Awaits, count, chips).is_some();
    match event {
        Event::Start => Role::new(partner, Act::Start(dropped_of(met))),
        Event::Stop => Role::new(partner, Act::Stop(ending_of(met))),
        Event::Sent(true, byte) => address_role(byte, count, chips),
        Event::Sent(false, byte) if is_awaited => choice_role(byte, count, chips),
        Event::Sent(false, _) => Role::new(partner, byte_act(phase)),
        Event::Read(_) => Role::new(partner, read_act(phase)),
        Event::Wp(level) => Role::new(Some(named), Act::Wp(level)),
        Event::CycleOver => Role::new(Some(named), Act::CycleOver),
        Event::PowerUp => Role::new(partner, Act::PowerUp(dropped_of(met))),
    }
}
