// What a chip loses where an exchange is broken off by a Start or a power up (paper, "Start" and "Power up").
ghost use Rattle.std.specs.Prelude.{◌≡◌};
ghost use Rattle.trace.specs.Dropped.{dropped_span, dropped_data, dropped_of};

use chip::Chip;
use control::phase::{Came, Data, Phase};
use load::Span;

#[derive(Clone, Copy, Debug, PartialEq, Eq)]
pub enum Dropped {
    // `dropped_of` has the case.
    Nothing,
    // So many bytes of a page.
    Bytes(u16),
    ConfigurationBytes,
    LockCommand,
}

fn dropped_span(span: Span) -> Dropped
    ensures { result ≡ dropped_span span }
{
    if span.is_empty() {
        Dropped::Nothing
    } else {
        Dropped::Bytes(span.count)
    }
}

fn dropped_data(kind: Data, span: Span) -> Dropped
    ensures { result ≡ dropped_data kind span }
{
    match kind {
        Data::ToArray | Data::ToSecurity => dropped_span(span),
        Data::ToConfiguration(Came::Zero) => Dropped::Nothing,
        Data::ToConfiguration(_) => Dropped::ConfigurationBytes,
        Data::ToLock(true) => Dropped::LockCommand,
        Data::ToLock(false) | Data::ToNowhere => Dropped::Nothing,
    }
}

#[tactic(auto, unfolding(crate::specs::Dropped::dropped_of))]
pub fn dropped_of(chip: Chip) -> Dropped
    ensures { result ≡ dropped_of chip }
{
    match chip.control.phase {
        Phase::TakesData(kind) => dropped_data(kind, chip.span),
        _ => Dropped::Nothing,
    }
}
