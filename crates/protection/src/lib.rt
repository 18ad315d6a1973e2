// What is protected at a Stop (paper, "Protection"; sheets 6.6).
#![tactic(auto)]

ghost use Rattle.std.specs.Prelude.{◌≡◌};
ghost use Rattle.protection.specs.Protection.{is_protected, id_page_protected};

use base::bit::bit_of;
use control::Control;
use regions::zone::zone_of;

// Bit 1 of configuration byte 0.
const EWPM: u32 = 1;

// With EWPM the SWP bit of the counter's zone decides, and WP does not; without it WP does, for the whole array.
pub fn is_protected(c: Control) -> bool
    ensures { result ≡ is_protected c }
{
    if bit_of(c.config0, EWPM) {
        bit_of(c.config1, zone_of(c.part, c.arraycounter))
    } else {
        c.wp
    }
}

// The lock protects the ID page, and nothing else does: WP does not act here (D1).
pub fn id_page_protected(c: Control) -> bool
    ensures { result ≡ id_page_protected c }
{
    c.idlocked
}
