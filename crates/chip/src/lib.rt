// One chip: what each event does to it and to its shares of the two stores, and what it says (paper, "How one chip behaves"). The values of
// its load are lent, as the shares are.
#![tactic(auto)]

pub mod event;

ghost use Rattle.std.specs.Prelude.{◌≡◌};
ghost use Rattle.chip.specs.Chip.{fresh, start, take, read, stop, wp, cycle_over, power_up, taken, moved};

use crate::event::Event;
use control::phase::{Phase, is_busy};
use control::{Answered, Control, Said};
use load::{PAGE_MOST, Span};

#[derive(Clone, Copy, Debug, PartialEq, Eq)]
pub struct Chip {
    pub control: Control,
    pub span: Span,
}

#[derive(Clone, Copy, Debug, PartialEq, Eq)]
pub struct Stepped {
    pub chip: Chip,
    pub said: Said,
}

impl Chip {
    pub fn fresh(part: u8, strap: u8) -> Chip
        ensures { result ≡ fresh part strap }
    {
        Chip {
            control: Control::fresh(part, strap),
            span: Span::empty(),
        }
    }

    // A busy chip takes no notice of a Start.
    pub fn start(self) -> Chip
        ensures { result ≡ start self }
    {
        if is_busy(self.control.phase) {
            self
        } else {
            Chip {
                control: self.control.in_phase(Phase::AwaitsAddress),
                span: self.span.dropped(),
            }
        }
    }

    // A byte sent by the host, the first after a Start or not.
    pub fn take(self, first: bool, byte: u8, values: &mut [u8; PAGE_MOST]) -> Stepped
        ensures { (result, values.new) ≡ taken self first byte values.old }
    {
        let Answered { control, said } = taking::take(self.control, first, byte);
        let span = taking::loaded(self.span, self.control, byte, values);
        Stepped {
            chip: Chip { control, span },
            said,
        }
    }

    // A byte read by the host, which acknowledges it or not.
    pub fn read(self, array: &[u8], security: &[u8], nack: bool) -> Stepped
        ensures { result ≡ read self array.now security.now nack }
    {
        let Answered { control, said } = sending::read(self.control, array, security, nack);
        Stepped {
            chip: Chip { control, ..self },
            said,
        }
    }

    // A busy chip takes no notice of a Stop.
    pub fn stop(self, values: &[u8; PAGE_MOST], array: &mut [u8], security: &mut [u8]) -> Chip
        ensures { (result, array.new, security.new) ≡ stop self values.now array.old security.old }
    {
        if is_busy(self.control.phase) {
            self
        } else {
            Chip {
                control: cycle::stop(self.control, self.span, values, array, security),
                span: self.span.dropped(),
            }
        }
    }

    // The WP pin goes low or high.
    pub fn wp(self, level: bool) -> Chip
        ensures { result ≡ wp level self }
    {
        Chip {
            control: self.control.wp_at(level),
            ..self
        }
    }

    // The write cycle is over; no effect on a chip that has none: the bus refuses that (12).
    pub fn cycle_over(self) -> Chip
        ensures { result ≡ cycle_over self }
    {
        if is_busy(self.control.phase) {
            Chip {
                control: self.control.in_phase(Phase::Standby),
                ..self
            }
        } else {
            self
        }
    }

    // Stores, registers and the WP level stay.
    pub fn power_up(self) -> Chip
        ensures { result ≡ power_up self }
    {
        Chip {
            control: self.control.powered_up(),
            span: self.span.dropped(),
        }
    }

    // An event that meets neither the stores nor the values of a load; any other leaves the chip here.
    pub fn moved(self, event: Event) -> Chip
        ensures { result ≡ moved self event }
    {
        match event {
            Event::Start => self.start(),
            Event::Wp(level) => self.wp(level),
            Event::CycleOver => self.cycle_over(),
            Event::PowerUp => self.power_up(),
            Event::Stop | Event::Sent(..) | Event::Read(_) => self,
        }
    }
}
