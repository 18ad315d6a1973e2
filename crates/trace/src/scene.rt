// What the words of a line are chosen by, and what they name, beside what the event is.
use crate::chips::{Test, chip_at};
use crate::role::Role;
use crate::shown::{Listed, Named, PartAt};
use bus::Bus;
use chip::Chip;

#[derive(Clone, Copy)]
pub struct Scene {
    // The event's value, and the reply to it.
    pub value: u8,
    pub reply: u8,
    // The chip that the event is for, as it was and as the event left it. Where it is for none, a fresh one stands for it.
    pub chip: Named,
    pub met: Chip,
    pub left: Chip,
    // The chips that took bytes, were busy and were chosen.
    pub taking: Listed,
    pub busy: Listed,
    pub chosen: Listed,
    // Those that are chosen after the event, and that await a byte then.
    pub still_chosen: Listed,
    pub awaiting: Listed,
}

impl Scene {
    pub fn new(role: Role, before: &Bus, after: &Bus, value: u8, reply: u8) -> Scene {
        Scene {
            value,
            reply,
            chip: Named(role.chip),
            met: chip_at(before.chips, role.chip),
            left: chip_at(after.chips, role.chip),
            taking: Listed::of(Test::Takes, before),
            busy: Listed::of(Test::Busy, before),
            chosen: Listed::of(Test::Chosen, before),
            still_chosen: Listed::of(Test::Chosen, after),
            awaiting: Listed::of(Test::Awaits, after),
        }
    }

    // What the chip is.
    pub fn part(&self) -> PartAt {
        PartAt::of(self.met.control)
    }
}
