// What the words of a line name, as it is written.
use crate::chips::{Test, which};
use board::PLACES;
use bus::Bus;
use control::Control;
use parts::part::{Part24CS32, Part24CSM01, PartAT24CM01};
use std::fmt::{self, Write};

// A chip by its number, or that there is none.
#[derive(Clone, Copy)]
pub struct Named(pub Option<usize>);

impl Named {
    pub fn is_none(&self) -> bool {
        self.0.is_none()
    }
}

impl fmt::Display for Named {
    fn fmt<W: fmt::Write>(&self, f: &mut fmt::Formatter<W>) -> fmt::Result {
        match self.0 {
            Some(number) => write!(f, "chip {number}"),
            None => write!(f, "no chip"),
        }
    }
}

// Some chips, by their numbers.
#[derive(Clone, Copy)]
pub struct Listed([bool; PLACES]);

impl Listed {
    pub fn of(test: Test, bus: &Bus) -> Listed {
        Listed(which(test, bus.count, bus.chips))
    }

    pub fn is_any(&self) -> bool {
        self.0.contains(&true)
    }

    fn noun(&self) -> &'static str {
        match self.0.iter().filter(|listed| **listed).count() {
            0 => "no chip",
            1 => "chip",
            _ => "chips",
        }
    }
}

impl fmt::Display for Listed {
    fn fmt<W: fmt::Write>(&self, f: &mut fmt::Formatter<W>) -> fmt::Result {
        f.write_str(self.noun())?;
        for (number, listed) in self.0.iter().enumerate() {
            if *listed {
                write!(f, " {number}")?;
            }
        }
        Ok(())
    }
}

// A chip's part and strap.
#[derive(Clone, Copy)]
pub struct PartAt {
    part: u8,
    strap: u8,
}

impl PartAt {
    pub fn of(c: Control) -> PartAt {
        PartAt {
            part: c.part,
            strap: c.strap,
        }
    }

    fn part_name(&self) -> &'static str {
        match self.part {
            Part24CSM01::NUMBER => "24CSM01",
            Part24CS32::NUMBER => "24CS32",
            PartAT24CM01::NUMBER => "AT24CM01",
            _ => "",
        }
    }
}

impl fmt::Display for PartAt {
    fn fmt<W: fmt::Write>(&self, f: &mut fmt::Formatter<W>) -> fmt::Result {
        write!(f, "{} at strap {}", self.part_name(), self.strap)
    }
}

// How many bytes.
#[derive(Clone, Copy)]
pub struct Count(pub u16);

impl fmt::Display for Count {
    fn fmt<W: fmt::Write>(&self, f: &mut fmt::Formatter<W>) -> fmt::Result {
        match self.0 {
            1 => write!(f, "1 byte"),
            count => write!(f, "{count} bytes"),
        }
    }
}

// An address in one of a chip's two memories.
#[derive(Clone, Copy)]
pub enum Spot {
    InArray(u64),
    InSecurity(u64),
}

impl Spot {
    // Where a chip's counter of the array is, and its counter of the security register.
    pub fn array(c: Control) -> Spot {
        Spot::InArray(c.arraycounter.into())
    }

    pub fn security(c: Control) -> Spot {
        Spot::InSecurity(c.securitycounter.into())
    }
}

impl fmt::Display for Spot {
    fn fmt<W: fmt::Write>(&self, f: &mut fmt::Formatter<W>) -> fmt::Result {
        match self {
            Spot::InArray(address) => write!(f, "{address:05X} of its array"),
            Spot::InSecurity(address) => write!(f, "{address:05X} of its security register"),
        }
    }
}
