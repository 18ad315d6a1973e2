// A chip that takes bytes: what a byte sent by the host does to it, its load left aside (paper, "Data", "Configuration" and
// "Security register").
#![tactic(auto)]

ghost use Rattle.std.specs.Prelude.{◌≡◌};
ghost use Rattle.taking.specs.Taking.{came_more, take_lock_data, take_data, take, loaded};

use addressing::{take_address, take_busy, take_choice};
use control::phase::{Came, Data, Phase};
use control::{Answered, Control};
use load::{PAGE_MOST, Span};
use regions::page::next_in_page;
use wordaddress::take_word;

// One byte more for the configuration register.
fn came_more(came: Came, byte: u8) -> Came
    ensures { result ≡ came_more came byte }
{
    match came {
        Came::Zero => Came::One(byte),
        Came::One(first) => Came::Two(first, byte),
        Came::Two(first, second) => Came::Three(first, second, byte),
        Came::Three(..) | Came::More => Came::More,
    }
}

// On a locked page a lock command's data is not acknowledged either (sheets 10.4.1).
fn take_lock_data(c: Control) -> Answered
    ensures { result ≡ take_lock_data c }
{
    if c.idlocked {
        c.silent(Phase::Standby)
    } else {
        c.acked(Phase::TakesData(Data::ToLock(true)))
    }
}

// The counter goes round its page, also where the data will not be stored.
fn take_data(kind: Data, c: Control, byte: u8) -> Answered
    ensures { result ≡ take_data kind c byte }
{
    match kind {
        Data::ToArray => {
            let next = next_in_page(c.part, c.arraycounter);
            c.arraycounter_at(next)
                .acked(Phase::TakesData(Data::ToArray))
        }
        Data::ToSecurity => {
            let next = next_in_page(c.part, c.securitycounter);
            c.securitycounter_at(next)
                .acked(Phase::TakesData(Data::ToSecurity))
        }
        Data::ToConfiguration(came) => {
            let came = came_more(came, byte);
            c.acked(Phase::TakesData(Data::ToConfiguration(came)))
        }
        Data::ToLock(_) => take_lock_data(c),
        Data::ToNowhere => c.acked(Phase::TakesData(Data::ToNowhere)),
    }
}

// A byte sent, by the phase that it meets; `first` after a Start or not. A chip on standby or sending says nothing and stays.
#[tactic(auto, unfolding(crate::specs::Taking::take))]
pub fn take(c: Control, first: bool, byte: u8) -> Answered
    ensures { result ≡ take c first byte }
{
    match c.phase {
        Phase::Busy => take_busy(c, first, byte),
        Phase::AwaitsAddress => take_address(c, byte),
        Phase::AwaitsChoice => take_choice(c, byte),
        Phase::AwaitsWord(word) => take_word(word, c, byte),
        Phase::TakesData(kind) => take_data(kind, c, byte),
        Phase::Standby | Phase::SendsByte(_) => c.stays(),
    }
}

// What is loaded after a byte sent, and the values. A data byte goes into the load where it is for the array or the security register. On a
// locked page lock data ends the exchange, and any load with it.
#[tactic(auto, unfolding(crate::specs::Taking::span_after, crate::specs::Taking::values_after))]
pub fn loaded(span: Span, c: Control, byte: u8, values: &mut [u8; PAGE_MOST]) -> Span
    ensures { (result, values.new) ≡ loaded span c byte values.old }
{
    match c.phase {
        Phase::TakesData(Data::ToArray) => span.put(c.part, c.arraycounter, byte, values),
        Phase::TakesData(Data::ToSecurity) => span.put(c.part, c.securitycounter, byte, values),
        Phase::TakesData(Data::ToLock(_)) if c.idlocked => span.dropped(),
        _ => span,
    }
}
