// The bench's bus: one to four chips on a line, set up, stepped and run (paper, "What the bench plays" and "Events and replies").
#![tactic(auto)]

ghost use Rattle.std.specs.Prelude.{◌≡◌, ◌≤◌, ◌∷◌, length, ltb, Ok};
ghost use Rattle.refusal.specs.declared.Refusal.TheVariants.{ShortBuffer};
ghost use Rattle.refusal.specs.Checks.{first_of};
ghost use Rattle.board.specs.Place.{placed};
ghost use Rattle.lineup.specs.Wellformed.{well_formed};
ghost use Rattle.bus.specs.Setup.{empty, set_up_checks, fresh_chips, set_up};
ghost use Rattle.bus.specs.Step.{answered, entry_checks, chip_checks, event_checks, remembers, played, event, step_given, step};
ghost use Rattle.bus.specs.Run.{run_up_to, outcome, run};

use board::shares::wrong_length;
use board::{PLACES, Place, board_verdict, placed};
use chip::Chip;
use chip::event::Event;
use decode::{Addressed, addressed_of, decode_verdict, event_of};
use line::{Played, line_reply, line_verdict};
use lineup::places_of;
use load::PAGE_MOST;
use refusal::{Refusal, answer_word};

// `started`: a Start is remembered, so that the next byte sent is an address byte, whoever is busy (request E8). It stands last, so that the chips
// lie where copying them is cheap.
#[derive(Clone, Copy, Debug, PartialEq, Eq)]
pub struct Bus {
    pub count: usize,
    pub chips: [Chip; PLACES],
    pub values: [u8; PAGE_MOST],
    pub started: bool,
}

// Three structs, each with its definition, and no `Result`: a refused set-up returns an empty state, and a refused step or run the state that it was given (paper, "Events
// and replies"; `refused_set_up_is_empty`).
#[derive(Clone, Copy, Debug, PartialEq, Eq)]
pub struct SetUp {
    pub bus: Bus,
    pub verdict: Result<(), Refusal>,
}

#[derive(Clone, Copy, Debug, PartialEq, Eq)]
pub struct Stepped {
    pub bus: Bus,
    pub answer: Result<u8, Refusal>,
}

#[derive(Clone, Copy, Debug, PartialEq, Eq)]
pub struct Ran {
    pub bus: Bus,
    pub verdict: Result<(), Refusal>,
}

impl Bus {
    // Not well formed: it has no chips.
    pub fn empty() -> Bus
        ensures { result ≡ empty }
    {
        Bus {
            count: 0,
            chips: [Chip::fresh(0, 0); PLACES],
            values: [0; PAGE_MOST],
            started: false,
        }
    }

    // Checks 1 to 5 in that order over all chips; writes to neither store. Places past the count are ignored.
    #[tactic(auto, unfolding(crate::specs::Setup::set_up))]
    pub fn set_up(count: usize, places: [Place; PLACES], array: &[u8], security: &[u8]) -> SetUp
        ensures { result ≡ set_up count places array.now security.now }
    {
        let verdict = set_up_verdict(count, places, array, security);
        let bus = match verdict {
            Ok(()) => Bus {
                count,
                chips: fresh_chips(count, places),
                ..Bus::empty()
            },
            Err(_) => Bus::empty(),
        };
        SetUp { bus, verdict }
    }

    pub fn well_formed(self) -> bool
        ensures { result ≡ well_formed self.count self.started self.chips }
    {
        lineup::well_formed(self.count, self.started, self.chips)
    }

    // Checks 10 and 5, which a step, a run and a page question begin with.
    pub fn entry_verdict(self, array: &[u8], security: &[u8]) -> Result<(), Refusal>
        ensures { result ≡ first_of (entry_checks self array.now security.now) }
    {
        if !self.well_formed() {
            Err(Refusal::NotWellFormed)
        } else if wrong_length(
            self.count,
            places_of(self.chips),
            array.len(),
            security.len(),
        ) {
            Err(Refusal::WrongLength)
        } else {
            Ok(())
        }
    }

    // Checks 10, 5 and 7 of a chip that is named by its number alone.
    pub fn chip_verdict(self, array: &[u8], security: &[u8], chip: usize) -> Result<(), Refusal>
        ensures { result ≡ first_of (chip_checks self array.now security.now chip) }
    {
        self.entry_verdict(array, security)?;
        if chip < self.count {
            Ok(())
        } else {
            Err(Refusal::WrongValue)
        }
    }

    // One event. What is refused changes nothing.
    #[tactic(auto, unfolding(crate::specs::Step::step))]
    pub fn step(self, array: &mut [u8], security: &mut [u8], word: u16) -> Stepped
        ensures { (result, array.new, security.new) ≡ step self array.old security.old word }
    {
        let entry = self.entry_verdict(array, security);
        self.step_given(entry, array, security, word)
    }

    // The same for a caller that has the verdict of checks 10 and 5 already.
    pub fn step_given(
        self,
        entry: Result<(), Refusal>,
        array: &mut [u8],
        security: &mut [u8],
        word: u16,
    ) -> Stepped
        ensures { (result, array.new, security.new) ≡ step_given entry self array.old security.old word }
    {
        let mut bus = self;
        let answer = bus.step_lent(entry, array, security, word);
        Stepped { bus, answer }
    }

    // The same of a state that is lent, so that it is not copied.
    pub fn step_lent(
        &mut self,
        entry: Result<(), Refusal>,
        array: &mut [u8],
        security: &mut [u8],
        word: u16,
    ) -> Result<u8, Refusal>
        ensures { (answered self.new result, array.new, security.new) ≡ step_given entry self.old array.old security.old word }
    {
        entry?;
        event(self, array, security, word)
    }

    // One event after the other, with an answer for each. The state is tested once: every event keeps it well formed.
    #[tactic(auto, unfolding(crate::specs::Run::run))]
    pub fn run(
        self,
        array: &mut [u8],
        security: &mut [u8],
        events: &[u16],
        answers: &mut [u16],
    ) -> Ran
        ensures { outcome result array.new security.new answers.new ≡ run self array.old security.old events.now answers.old }
    {
        let mut bus = self;
        let verdict = bus.run_verdict(array, security, events.len(), answers.len());
        if verdict.is_ok() {
            run_all(&mut bus, array, security, events, answers);
        }
        Ran { bus, verdict }
    }

    // Check 11, then those at entry.
    fn run_verdict(
        self,
        array: &[u8],
        security: &[u8],
        events: usize,
        answers: usize,
    ) -> Result<(), Refusal>
        ensures { result ≡ first_of ((ltb answers events, ShortBuffer) ∷ entry_checks self array.now security.now) }
    {
        if answers < events {
            Err(Refusal::ShortBuffer)
        } else {
            self.entry_verdict(array, security)
        }
    }
}

#[tactic(auto, unfolding(board::specs::Board::board_verdict))]
fn set_up_verdict(
    count: usize,
    places: [Place; PLACES],
    array: &[u8],
    security: &[u8],
) -> Result<(), Refusal>
    ensures { result ≡ first_of (set_up_checks count places array.now security.now) }
{
    board_verdict(count, places)?;
    if wrong_length(count, places, array.len(), security.len()) {
        Err(Refusal::WrongLength)
    } else {
        Ok(())
    }
}

// A fresh chip at each place that the count fills.
fn fresh_chips(count: usize, places: [Place; PLACES]) -> [Chip; PLACES]
    ensures { result ≡ fresh_chips places (placed count) }
{
    let mut chips = [Chip::fresh(0, 0); PLACES];
    for i in 0..placed(count) {
        chips[i] = Chip::fresh(places[i].part, places[i].strap);
    }
    chips
}

// Checks 6, 7, 12 and 8.
fn event_verdict(bus: &Bus, word: u16) -> Result<(), Refusal>
    ensures { result ≡ first_of (event_checks bus.now word) }
{
    decode_verdict(bus.count, word)?;
    line_verdict(addressed_of(bus.started, word), bus.count, bus.chips)
}

// Whether a Start is remembered after an event that is done.
fn remembers(event: Event, started: bool) -> bool
    ensures { result ≡ remembers event started }
{
    match event {
        Event::Start => true,
        Event::Wp(_) | Event::CycleOver => started,
        Event::Stop | Event::Sent(_, _) | Event::Read(_) | Event::PowerUp => false,
    }
}

// One event of a state that passes all its checks, and the reply. The state is lent, so that it is not copied from function to function.
#[tactic(auto, unfolding(crate::specs::Step::played))]
fn played(addressed: Addressed, bus: &mut Bus, array: &mut [u8], security: &mut [u8]) -> u8
    ensures { (answered bus.new (Ok result), array.new, security.new) ≡ played addressed bus.old array.old security.old }
{
    let Played { chips, said } = line::play(
        addressed,
        bus.count,
        bus.chips,
        &mut bus.values,
        array,
        security,
    );
    let event = event_of(addressed);
    bus.chips = chips;
    bus.started = remembers(event, bus.started);
    line_reply(event, said)
}

// One event of a state that has passed 10 and 5.
#[tactic(auto, unfolding(crate::specs::Step::event))]
fn event(bus: &mut Bus, array: &mut [u8], security: &mut [u8], word: u16) -> Result<u8, Refusal>
    ensures { (answered bus.new result, array.new, security.new) ≡ event bus.old array.old security.old word }
{
    event_verdict(bus, word)?;
    Ok(played(addressed_of(bus.started, word), bus, array, security))
}

fn run_all(
    bus: &mut Bus,
    array: &mut [u8],
    security: &mut [u8],
    events: &[u16],
    answers: &mut [u16],
)
    requires { length events.now ≤ length answers.old }
    ensures { (bus.new, array.new, security.new, answers.new) ≡ run_up_to events.now (length events.now) (bus.old, array.old, security.old, answers.old) }
{
    for (i, word) in events.iter().enumerate() {
        answers[i] = answer_word(event(bus, array, security, *word));
    }
}
