// An event and the phase of a chip that it meets.
ghost use Rattle.std.specs.Prelude.{◌≡◌};
ghost use Rattle.decode.specs.Hearing.{lacks_cycle, clashes_with};

use chip::event::Event;
use control::phase::{Phase, is_busy, is_sending, is_taking};

// Refusal 12, of one chip.
pub fn lacks_cycle(event: Event, phase: Phase) -> bool
    ensures { result ≡ lacks_cycle event phase }
{
    matches!(event, Event::CycleOver) && !is_busy(phase)
}

// Refusal 8, of one chip.
pub fn clashes_with(event: Event, phase: Phase) -> bool
    ensures { result ≡ clashes_with event phase }
{
    match event {
        Event::Sent(_, _) => is_sending(phase),
        Event::Read(_) => is_taking(phase),
        Event::Start | Event::Stop | Event::Wp(_) | Event::CycleOver | Event::PowerUp => false,
    }
}
