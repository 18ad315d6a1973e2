// What an event word asks for (paper, "Events and replies").
#![tactic(auto)]

pub mod hearing;

ghost use Rattle.std.specs.Prelude.{◌≡◌};
ghost use Rattle.refusal.specs.Checks.{first_of};
ghost use Rattle.decode.specs.Decode.{value_allowed, decode_checks, addressed_in, addressed_of, reaches, event_of};
ghost use Rattle.decode.specs.Kind.{number_of, Numbers};

use chip::event::Event;
use refusal::Refusal;

// The kinds of event, as the paper numbers them from 01 on.
#[derive(Clone, Copy, Debug, PartialEq, Eq)]
enum Kind {
    Start,
    Stop,
    Send,
    Read,
    WpLow,
    WpHigh,
    CycleOver,
    PowerUp,
}

// The value of a read that the host does not acknowledge.
const NACK: u8 = 1;

// An event for every chip, or for the chip named.
#[derive(Clone, Copy, Debug, PartialEq, Eq)]
pub enum Addressed {
    ToAll(Event),
    ToOne(u8, Event),
}

impl TryFrom<u8> for Kind {
    type Error = Refusal;

    ghost try_from_gives = { Numbers };

    fn try_from(number: u8) -> Result<Kind, Refusal> {
        match number {
            1 => Ok(Kind::Start),
            2 => Ok(Kind::Stop),
            3 => Ok(Kind::Send),
            4 => Ok(Kind::Read),
            5 => Ok(Kind::WpLow),
            6 => Ok(Kind::WpHigh),
            7 => Ok(Kind::CycleOver),
            8 => Ok(Kind::PowerUp),
            _ => Err(Refusal::UnknownKind),
        }
    }
}

impl Kind {
    fn allows(self, count: usize, value: u8) -> bool
        ensures { result ≡ value_allowed count (number_of self) value }
    {
        match self {
            Kind::Send => true,
            Kind::Read => value <= NACK,
            Kind::WpLow | Kind::WpHigh | Kind::CycleOver => usize::from(value) < count,
            Kind::Start | Kind::Stop | Kind::PowerUp => value == 0,
        }
    }

    // A byte sent while a Start is remembered is the first after it (request E8).
    fn asks(self, started: bool, value: u8) -> Addressed
        ensures { result ≡ addressed_in started (number_of self) value }
    {
        match self {
            Kind::Start => Addressed::ToAll(Event::Start),
            Kind::Stop => Addressed::ToAll(Event::Stop),
            Kind::Send => Addressed::ToAll(Event::Sent(started, value)),
            Kind::Read => Addressed::ToAll(Event::Read(value == NACK)),
            Kind::WpLow => Addressed::ToOne(value, Event::Wp(false)),
            Kind::WpHigh => Addressed::ToOne(value, Event::Wp(true)),
            Kind::CycleOver => Addressed::ToOne(value, Event::CycleOver),
            Kind::PowerUp => Addressed::ToAll(Event::PowerUp),
        }
    }
}

// Checks 6 and 7 of a step.
pub fn decode_verdict(count: usize, word: u16) -> Result<(), Refusal>
    ensures { result ≡ first_of (decode_checks count word) }
{
    let [number, value] = word.to_be_bytes();
    let kind = Kind::try_from(number)?;
    if kind.allows(count, value) {
        Ok(())
    } else {
        Err(Refusal::WrongValue)
    }
}

// What a word that passes them asks for.
#[tactic(auto, unfolding(crate::specs::Decode::addressed_of))]
pub fn addressed_of(started: bool, word: u16) -> Addressed
    ensures { result ≡ addressed_of started word }
{
    let [number, value] = word.to_be_bytes();
    Kind::try_from(number)
        .unwrap_or(Kind::PowerUp)
        .asks(started, value)
}

// Whether it is for chip i.
pub fn reaches(addressed: Addressed, i: usize) -> bool
    ensures { result ≡ reaches addressed i }
{
    match addressed {
        Addressed::ToAll(_) => true,
        Addressed::ToOne(named, _) => i == usize::from(named),
    }
}

pub fn event_of(addressed: Addressed) -> Event
    ensures { result ≡ event_of addressed }
{
    match addressed {
        Addressed::ToAll(event) | Addressed::ToOne(_, event) => event,
    }
}
