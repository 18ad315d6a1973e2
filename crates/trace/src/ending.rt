// What a Stop makes of an exchange (paper, "Stop", "Protection", "Security register" and "Configuration").
ghost use Rattle.std.specs.Prelude.{◌≡◌};
ghost use Rattle.parts.specs.Part.{geometry_of};
ghost use Rattle.trace.specs.Ending.{run_of, ending_array, ending_security, ending_three, ending_configuration, ending_lock, ending_data, ending_of};

use base::bit::bit_of;
use chip::Chip;
use configuration::stop_configuration;
use control::Control;
use control::phase::{Came, Data, Phase, is_busy};
use load::Span;
use parts::part::geometry_of;
use protection::{id_page_protected, is_protected};
use regions::page::{in_id_page, page_of};

#[derive(Clone, Copy, Debug, PartialEq, Eq)]
pub enum Ending {
    // The chip took no part in an exchange.
    Idle,
    // It was sending.
    ReadEnds,
    // A write cycle begins.
    Stores(Stored),
    // No write cycle.
    StoresNothing(Reason),
}

// What is stored. Of the configuration register both bytes.
#[derive(Clone, Copy, Debug, PartialEq, Eq)]
pub enum Stored {
    InArray(Run),
    InSecurity(Run),
    Configuration(u8, u8),
    IdLock,
}

// So many bytes from an address on. Those that go round come to the end of the page, and go on at its start. An address is wide, so that no
// state makes it wrap.
#[derive(Clone, Copy, Debug, PartialEq, Eq)]
pub struct Run {
    pub first: u64,
    pub count: u16,
    pub round: bool,
}

#[derive(Clone, Copy, Debug, PartialEq, Eq)]
pub enum Reason {
    // The word address is not whole.
    NoAddress,
    NoData,
    Protected,
    ReadOnly,
    IdLocked,
    ConfigurationLocked,
    // Not three configuration bytes; not the confirmation byte.
    NotThree,
    NotConfirmed,
    Nowhere,
}

// Bit 0 of configuration byte 0 is LOCK, and its bits 1 and 0 can be written.
const LOCK: u32 = 0;

const WRITABLE: u8 = 4;

// The bytes of a load, in the page that a counter lies in.
fn run_of(part: u8, at: u32, span: Span) -> Run
    ensures { result ≡ run_of (geometry_of part) at span }
{
    let page = geometry_of(part).page;
    let start = page_of(part, at) * page;
    Run {
        first: start as u64 + span.first as u64,
        count: span.count,
        round: page < span.first as u32 + span.count as u32,
    }
}

fn ending_array(c: Control, span: Span) -> Ending
    ensures { result ≡ ending_array c span }
{
    if span.is_empty() {
        Ending::StoresNothing(Reason::NoData)
    } else if is_protected(c) {
        Ending::StoresNothing(Reason::Protected)
    } else {
        Ending::Stores(Stored::InArray(run_of(c.part, c.arraycounter, span)))
    }
}

// No twin of `ending_array`: only here the ID page is asked for.
fn ending_security(c: Control, span: Span) -> Ending
    ensures { result ≡ ending_security c span }
{
    if span.is_empty() {
        Ending::StoresNothing(Reason::NoData)
    } else if !in_id_page(c.part, c.securitycounter) {
        Ending::StoresNothing(Reason::ReadOnly)
    } else if id_page_protected(c) {
        Ending::StoresNothing(Reason::IdLocked)
    } else {
        Ending::Stores(Stored::InSecurity(run_of(c.part, c.securitycounter, span)))
    }
}

// Three bytes came for the configuration register.
fn ending_three(c: Control, first: u8, second: u8, third: u8) -> Ending
    ensures { result ≡ ending_three c first second third }
{
    let stopped = stop_configuration(Came::Three(first, second, third), c);
    if is_busy(stopped.phase) {
        Ending::Stores(Stored::Configuration(first % WRITABLE, second))
    } else if bit_of(c.config0, LOCK) {
        Ending::StoresNothing(Reason::ConfigurationLocked)
    } else {
        Ending::StoresNothing(Reason::NotConfirmed)
    }
}

fn ending_configuration(c: Control, came: Came) -> Ending
    ensures { result ≡ ending_configuration c came }
{
    match came {
        Came::Zero => Ending::StoresNothing(Reason::NoData),
        Came::Three(first, second, third) => ending_three(c, first, second, third),
        _ => Ending::StoresNothing(Reason::NotThree),
    }
}

fn ending_lock(c: Control, some: bool) -> Ending
    ensures { result ≡ ending_lock c some }
{
    if !some {
        Ending::StoresNothing(Reason::NoData)
    } else if c.idlocked {
        Ending::StoresNothing(Reason::IdLocked)
    } else {
        Ending::Stores(Stored::IdLock)
    }
}

fn ending_data(kind: Data, c: Control, span: Span) -> Ending
    ensures { result ≡ ending_data kind c span }
{
    match kind {
        Data::ToArray => ending_array(c, span),
        Data::ToSecurity => ending_security(c, span),
        Data::ToConfiguration(came) => ending_configuration(c, came),
        Data::ToLock(some) => ending_lock(c, some),
        Data::ToNowhere => Ending::StoresNothing(Reason::Nowhere),
    }
}

#[tactic(auto, unfolding(crate::specs::Ending::ending_of))]
pub fn ending_of(chip: Chip) -> Ending
    ensures { result ≡ ending_of chip }
{
    let c = chip.control;
    match c.phase {
        Phase::AwaitsWord(_) => Ending::StoresNothing(Reason::NoAddress),
        Phase::TakesData(kind) => ending_data(kind, c, chip.span),
        Phase::SendsByte(_) => Ending::ReadEnds,
        _ => Ending::Idle,
    }
}
