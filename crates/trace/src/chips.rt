// Which chips of a line something holds of.
ghost use Rattle.std.specs.Prelude.{◌≡◌, ◌<◌};
ghost use Rattle.trace.specs.Chips.{is_array_byte, is_register_byte, has_address, is_partner, holds, who, which, chip_or_none};

use board::{PLACES, placed};
use chip::Chip;
use control::Control;
use control::phase::{Phase, is_awaiting, is_busy, is_sending, is_taking};
use parts::address::answers;

// What is asked of a chip. No closure: definitions and theorems name it (`who Partner`, in `the_partner_is_named`).
#[derive(Clone, Copy, Debug, PartialEq, Eq)]
pub enum Test {
    // It is the host's partner.
    Partner,
    // A byte of the form 1010 or 1011 has its code.
    HasAddress(u8),
    // It awaits an address byte, or the byte after F8h.
    Awaits,
    // It takes bytes.
    Takes,
    Busy,
    Chosen,
}

// The device type identifiers (paper, "Address byte").
const ARRAY: u8 = 0b1010;

const REGISTERS: u8 = 0b1011;

pub fn is_array_byte(byte: u8) -> bool
    ensures { result ≡ is_array_byte byte }
{
    byte / 16 == ARRAY
}

pub fn is_register_byte(byte: u8) -> bool
    ensures { result ≡ is_register_byte byte }
{
    byte / 16 == REGISTERS
}

// Whatever the part is able to do: an AT24CM01 has 1011 addresses too, and acknowledges none.
fn has_address(byte: u8, c: Control) -> bool
    ensures { result ≡ has_address byte c }
{
    (is_array_byte(byte) || is_register_byte(byte)) && answers(c.part, c.strap, byte / 2 % 8)
}

// The host's partner sends, or takes word-address or data bytes: an address byte was for it.
fn is_partner(phase: Phase) -> bool
    ensures { result ≡ is_partner phase }
{
    is_sending(phase) || (is_taking(phase) && !is_awaiting(phase))
}

impl Test {
    fn holds(self, c: Control) -> bool
        ensures { result ≡ holds self c }
    {
        match self {
            Test::Partner => is_partner(c.phase),
            Test::HasAddress(byte) => has_address(byte, c),
            Test::Awaits => is_awaiting(c.phase),
            Test::Takes => is_taking(c.phase),
            Test::Busy => is_busy(c.phase),
            Test::Chosen => c.chosen,
        }
    }
}

// The chip of which it holds, if there is one. Count and chips as `line::play` has them. Of partners, and of chips with an address, a well-formed line has one at most.
#[tactic(auto, unfolding(base::specs::Fold::up_to, crate::specs::Chips::who), using(crate::proofs::Placed::of_loop))]
pub fn who(test: Test, count: usize, chips: [Chip; PLACES]) -> Option<usize>
    ensures { result ≡ who test count chips }
{
    let mut found = None;
    for (i, chip) in chips[..placed(count)].iter().enumerate() {
        if test.holds(chip.control) {
            found = Some(i);
        }
    }
    found
}

// All of which it holds.
#[tactic(auto, unfolding(base::specs::Fold::up_to, crate::specs::Chips::which), using(crate::proofs::Placed::of_loop))]
pub fn which(test: Test, count: usize, chips: [Chip; PLACES]) -> [bool; PLACES]
    ensures { result ≡ which test count chips }
{
    let mut found = [false; PLACES];
    for (i, chip) in chips[..placed(count)].iter().enumerate() {
        found[i] = test.holds(chip.control);
    }
    found
}

// A chip by its place. Where there is none, a fresh one stands for it, which is on standby.
pub fn chip_at(chips: [Chip; PLACES], place: Option<usize>) -> Chip
    ensures { result ≡ chip_or_none chips place }
{
    match place {
        Some(i) if i < PLACES => chips[i],
        _ => Chip::fresh(0, 0),
    }
}
