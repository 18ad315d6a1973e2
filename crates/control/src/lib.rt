// A chip without its page load: its pins, registers and counters, and where it stands in an exchange.
#![tactic(auto)]

pub mod phase;

ghost use Rattle.std.specs.Prelude.{◌≡◌};
ghost use Rattle.control.specs.Control.{fresh, in_phase, showing, choosing, arraycounter_at, securitycounter_at, idlocked_now, configured, wp_at};
ghost use Rattle.control.specs.Exchange.{standby_now, busy_now, powered_up};
ghost use Rattle.control.specs.Said.{acked, silent, occupied, stays};

use crate::phase::{Phase, Shown};

// Part and strap are raw numbers, since a malformed state may hold any. The counters are `array` and `security`.
#[derive(Clone, Copy, Debug, PartialEq, Eq)]
pub struct Control {
    pub part: u8,
    pub strap: u8,
    pub wp: bool,
    pub config0: u8,
    pub config1: u8,
    pub idlocked: bool,
    pub arraycounter: u32,
    pub securitycounter: u32,
    pub shown: Shown,
    pub chosen: bool,
    pub phase: Phase,
}

// What a chip says to an event. `Occupied`: it is busy, and an address byte names it (request E8).
#[derive(Clone, Copy, Debug, PartialEq, Eq)]
pub enum Said {
    Nothing,
    Ack,
    Occupied,
    Byte(u8),
}

#[derive(Clone, Copy, Debug, PartialEq, Eq)]
pub struct Answered {
    pub control: Control,
    pub said: Said,
}

impl Control {
    // As set up (paper, "The two memories").
    pub fn fresh(part: u8, strap: u8) -> Control
        ensures { result ≡ fresh part strap }
    {
        Control {
            part,
            strap,
            wp: false,
            config0: 0,
            config1: 0,
            idlocked: false,
            arraycounter: 0,
            securitycounter: 0,
            shown: Shown::ShowsSecurity,
            chosen: false,
            phase: Phase::Standby,
        }
    }

    // Setters.
    pub fn in_phase(self, phase: Phase) -> Control
        ensures { result ≡ in_phase phase self }
    {
        Self { phase, ..self }
    }

    pub fn showing(self, shown: Shown) -> Control
        ensures { result ≡ showing shown self }
    {
        Self { shown, ..self }
    }

    pub fn choosing(self, chosen: bool) -> Control
        ensures { result ≡ choosing chosen self }
    {
        Self { chosen, ..self }
    }

    pub fn arraycounter_at(self, at: u32) -> Control
        ensures { result ≡ arraycounter_at at self }
    {
        Self {
            arraycounter: at,
            ..self
        }
    }

    pub fn securitycounter_at(self, at: u32) -> Control
        ensures { result ≡ securitycounter_at at self }
    {
        Self {
            securitycounter: at,
            ..self
        }
    }

    pub fn idlocked_now(self) -> Control
        ensures { result ≡ idlocked_now self }
    {
        Self {
            idlocked: true,
            ..self
        }
    }

    pub fn configured(self, config0: u8, config1: u8) -> Control
        ensures { result ≡ configured config0 config1 self }
    {
        Self {
            config0,
            config1,
            ..self
        }
    }

    pub fn wp_at(self, level: bool) -> Control
        ensures { result ≡ wp_at level self }
    {
        Self { wp: level, ..self }
    }

    // A byte acknowledged, and one that is not.
    pub fn acked(self, phase: Phase) -> Answered
        ensures { result ≡ acked phase self }
    {
        Answered {
            control: self.in_phase(phase),
            said: Said::Ack,
        }
    }

    pub fn silent(self, phase: Phase) -> Answered
        ensures { result ≡ silent phase self }
    {
        Answered {
            control: self.in_phase(phase),
            said: Said::Nothing,
        }
    }

    // An address byte that names the chip while it is busy.
    pub fn occupied(self) -> Answered
        ensures { result ≡ occupied self }
    {
        Answered {
            control: self,
            said: Said::Occupied,
        }
    }

    // An event that is not for this chip.
    pub fn stays(self) -> Answered
        ensures { result ≡ stays self }
    {
        Answered {
            control: self,
            said: Said::Nothing,
        }
    }

    // The exchange is over without a cycle: standby until the next Start. However one ends, the choice is dropped.
    pub fn standby_now(self) -> Control
        ensures { result ≡ standby_now self }
    {
        self.choosing(false).in_phase(Phase::Standby)
    }

    // A write cycle runs: busy until event 07 or 08.
    pub fn busy_now(self) -> Control
        ensures { result ≡ busy_now self }
    {
        self.choosing(false).in_phase(Phase::Busy)
    }

    // Registers and the WP level stay.
    pub fn powered_up(self) -> Control
        ensures { result ≡ powered_up self }
    {
        self.choosing(false)
            .arraycounter_at(0)
            .securitycounter_at(0)
            .showing(Shown::ShowsSecurity)
            .in_phase(Phase::Standby)
    }
}
