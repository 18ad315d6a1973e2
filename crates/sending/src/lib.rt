// A chip that sends: what a byte read by the host does to it (paper, "Read", "Configuration" and "Device ID").
#![tactic(auto)]

ghost use Rattle.std.specs.Prelude.{◌≡◌, get_or};
ghost use Rattle.parts.specs.Part.{geometry_of};
ghost use Rattle.sending.specs.Sending.{no_byte, id_byte, next_id_place, byte_from, moved_past, after_reply, send, read};

use control::phase::{Phase, Source};
use control::{Answered, Control, Said};
use parts::part::geometry_of;
use regions::page::next_in;

// What the line shows where nothing pulls it low.
const NO_BYTE: u8 = 0xFF;

// The place of the last ID byte.
const LAST_ID: u8 = 2;

fn byte_at(share: &[u8], at: u32) -> u8
    ensures { result ≡ get_or share.now at no_byte }
{
    share.get(at as usize).copied().unwrap_or(NO_BYTE)
}

fn id_byte(part: u8, place: u8) -> u8
    ensures { result ≡ id_byte (geometry_of part) place }
{
    byte_at(&geometry_of(part).id, u32::from(place))
}

// After the third ID byte the first follows (request E5; sheets 11.0).
fn next_id_place(place: u8) -> u8
    ensures { result ≡ next_id_place place }
{
    if place < LAST_ID { place + 1 } else { 0 }
}

fn byte_from(source: Source, c: Control, array: &[u8], security: &[u8]) -> u8
    ensures { result ≡ byte_from source c array.now security.now }
{
    match source {
        Source::FromArray => byte_at(array, c.arraycounter),
        Source::FromSecurity => byte_at(security, c.securitycounter),
        Source::FromConfiguration(false) => c.config0,
        Source::FromConfiguration(true) => c.config1,
        Source::FromId(place) => id_byte(c.part, place),
        Source::FromNothing => NO_BYTE,
    }
}

// The counter, or the place, goes on past the byte that was sent.
fn moved_past(source: Source, c: Control) -> Control
    ensures { result ≡ moved_past source c }
{
    let g = geometry_of(c.part);
    match source {
        Source::FromArray => c.arraycounter_at(next_in(g.array, c.arraycounter)),
        Source::FromSecurity => c.securitycounter_at(next_in(g.security, c.securitycounter)),
        Source::FromConfiguration(second) => {
            c.in_phase(Phase::SendsByte(Source::FromConfiguration(!second)))
        }
        Source::FromId(place) => c.in_phase(Phase::SendsByte(Source::FromId(next_id_place(place)))),
        Source::FromNothing => c,
    }
}

// A host NACK ends the read.
fn after_reply(c: Control, nack: bool) -> Control
    ensures { result ≡ after_reply c nack }
{
    if nack { c.in_phase(Phase::Standby) } else { c }
}

fn send(source: Source, c: Control, array: &[u8], security: &[u8], nack: bool) -> Answered
    ensures { result ≡ send source c array.now security.now nack }
{
    Answered {
        control: after_reply(moved_past(source, c), nack),
        said: Said::Byte(byte_from(source, c, array, security)),
    }
}

// A byte read. A chip that does not send says nothing and stays.
#[tactic(auto, unfolding(crate::specs::Sending::read))]
pub fn read(c: Control, array: &[u8], security: &[u8], nack: bool) -> Answered
    ensures { result ≡ read c array.now security.now nack }
{
    if let Phase::SendsByte(source) = c.phase {
        send(source, c, array, security, nack)
    } else {
        c.stays()
    }
}
