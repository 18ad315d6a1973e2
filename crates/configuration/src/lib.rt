// Writing the configuration register: two bytes and a confirmation, no more and no less (paper, "Configuration"; sheets 9.3, 9.5).
#![tactic(auto)]

ghost use Rattle.std.specs.Prelude.{◌≡◌};
ghost use Rattle.configuration.specs.Configuration.{confirms, configure, stop_configuration};

use base::bit::bit_of;
use control::Control;
use control::phase::Came;

// Bit 0 of configuration byte 0.
const LOCK: u32 = 0;

// Table 9-4: the confirmation byte for a LOCK of 1, and of 0.
const CONFIRMS_LOCK: u8 = 0x99;

const CONFIRMS_NO_LOCK: u8 = 0x66;

// Bits 1 and 0 of byte 0 can be written; the others, ECS among them, read 0.
const WRITABLE: u8 = 4;

fn confirms(first: u8, third: u8) -> bool
    ensures { result ≡ confirms first third }
{
    if bit_of(first, LOCK) {
        third == CONFIRMS_LOCK
    } else {
        third == CONFIRMS_NO_LOCK
    }
}

fn configure(first: u8, second: u8, third: u8, c: Control) -> Control
    ensures { result ≡ configure first second third c }
{
    if confirms(first, third) && !bit_of(c.config0, LOCK) {
        c.configured(first % WRITABLE, second).busy_now()
    } else {
        c.standby_now()
    }
}

pub fn stop_configuration(came: Came, c: Control) -> Control
    ensures { result ≡ stop_configuration came c }
{
    match came {
        Came::Three(first, second, third) => configure(first, second, third, c),
        Came::Zero | Came::One(_) | Came::Two(..) | Came::More => c.standby_now(),
    }
}
