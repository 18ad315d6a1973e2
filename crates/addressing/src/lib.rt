// An address byte, and the byte after F8h (paper, "Address byte" and "Device ID"; sheets 3.3 and 11.0).
#![tactic(auto)]

ghost use Rattle.std.specs.Prelude.{◌≡◌};
ghost use Rattle.parts.specs.Part.{geometry_of};
ghost use Rattle.addressing.specs.Address.{call_by_form, is_able, call_of, source_of, take_address, take_identify, is_named, take_busy, take_choice};

use control::phase::{Phase, Shown, Source, Word};
use control::{Answered, Control};
use parts::address::{a16_of, answers};
use parts::part::geometry_of;

// The device type identifiers, 1010 for the array and 1011 for the registers, and the two host codes of the Device ID.
const ARRAY: u8 = 0b1010;

const REGISTERS: u8 = 0b1011;

const F8: u8 = 0xF8;

const F9: u8 = 0xF9;

// What an address byte asks of a chip. A write to the array carries A16.
#[derive(Clone, Copy, Debug, PartialEq, Eq)]
pub enum Call {
    ReadArray,
    WriteArray(bool),
    ReadRegister,
    WriteRegister,
    HostF8,
    HostF9,
    Nobody,
}

// By its form alone, whatever the part is able to do.
#[tactic(auto, unfolding(crate::specs::Address::call_by_form))]
fn call_by_form(part: u8, strap: u8, byte: u8) -> Call
    ensures { result ≡ call_by_form (geometry_of part) strap byte }
{
    if byte == F8 {
        return Call::HostF8;
    }
    if byte == F9 {
        return Call::HostF9;
    }
    let code = byte / 2 % 8;
    if !answers(part, strap, code) {
        return Call::Nobody;
    }
    match (byte / 16, byte % 2 == 1) {
        (ARRAY, true) => Call::ReadArray,
        (ARRAY, false) => Call::WriteArray(a16_of(part, code)),
        (REGISTERS, true) => Call::ReadRegister,
        (REGISTERS, false) => Call::WriteRegister,
        _ => Call::Nobody,
    }
}

// 1011 bytes are for a part that has registers, F8h and F9h for one that identifies itself (request E7).
fn is_able(part: u8, call: Call) -> bool
    ensures { result ≡ is_able (geometry_of part) call }
{
    let figures = geometry_of(part);
    match call {
        Call::ReadRegister | Call::WriteRegister => figures.registers,
        Call::HostF8 | Call::HostF9 => figures.identifies,
        Call::ReadArray | Call::WriteArray(_) | Call::Nobody => true,
    }
}

// What the part is not able to do is asked of nobody.
#[tactic(auto, unfolding(crate::specs::Address::call_of))]
pub fn call_of(part: u8, strap: u8, byte: u8) -> Call
    ensures { result ≡ call_of (geometry_of part) strap byte }
{
    let asked = call_by_form(part, strap, byte);
    if is_able(part, asked) {
        asked
    } else {
        Call::Nobody
    }
}

// Where a 1011 read comes from; the configuration register starts at byte 0.
fn source_of(shown: Shown) -> Source
    ensures { result ≡ source_of shown }
{
    match shown {
        Shown::ShowsSecurity => Source::FromSecurity,
        Shown::ShowsConfiguration => Source::FromConfiguration(false),
        Shown::ShowsNothing => Source::FromNothing,
    }
}

// F9h is for the chosen chip, which stays chosen.
fn take_identify(c: Control) -> Answered
    ensures { result ≡ take_identify c }
{
    if c.chosen {
        c.acked(Phase::SendsByte(Source::FromId(0)))
    } else {
        c.silent(Phase::Standby)
    }
}

// Any address byte but F9h drops the choice.
#[tactic(auto, unfolding(crate::specs::Address::take_address))]
pub fn take_address(c: Control, byte: u8) -> Answered
    ensures { result ≡ take_address c byte }
{
    let dropped = c.choosing(false);
    match call_of(c.part, c.strap, byte) {
        Call::ReadArray => dropped.acked(Phase::SendsByte(Source::FromArray)),
        Call::WriteArray(a16) => dropped.acked(Phase::AwaitsWord(Word::ArrayFirst(a16))),
        Call::ReadRegister => dropped.acked(Phase::SendsByte(source_of(c.shown))),
        Call::WriteRegister => dropped.acked(Phase::AwaitsWord(Word::RegisterFirst)),
        Call::HostF8 => dropped.acked(Phase::AwaitsChoice),
        Call::HostF9 => take_identify(c),
        Call::Nobody => dropped.silent(Phase::Standby),
    }
}

// A 1010 byte with a code of the chip names it, and a 1011 byte where it has registers.
fn is_named(call: Call) -> bool
    ensures { result ≡ is_named call }
{
    matches!(
        call,
        Call::ReadArray | Call::WriteArray(_) | Call::ReadRegister | Call::WriteRegister
    )
}

// A byte that finds the chip busy: only an address byte that names it gets a word (request E8).
#[tactic(auto, unfolding(crate::specs::Address::take_busy))]
pub fn take_busy(c: Control, first: bool, byte: u8) -> Answered
    ensures { result ≡ take_busy c first byte }
{
    if first && is_named(call_of(c.part, c.strap, byte)) {
        c.occupied()
    } else {
        c.stays()
    }
}

// The byte after F8h chooses the chip whose 1010 address it is, for reading or writing.
#[tactic(auto, unfolding(crate::specs::Address::take_choice))]
pub fn take_choice(c: Control, byte: u8) -> Answered
    ensures { result ≡ take_choice c byte }
{
    match call_of(c.part, c.strap, byte) {
        Call::ReadArray | Call::WriteArray(_) => c.choosing(true).acked(Phase::Standby),
        _ => c.silent(Phase::Standby),
    }
}
