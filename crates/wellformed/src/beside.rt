// Two chips on one line (paper, "Well formed means").
ghost use Rattle.std.specs.Prelude.{◌≡◌};
ghost use Rattle.wellformed.specs.Beside.{is_active, waits_too, side_by_side};

use control::Control;
use control::phase::{awaits_address, is_awaiting, is_sending, is_taking};

// Sending, chosen or taking word-address or data bytes.
fn is_active(c: Control) -> bool
    ensures { result ≡ is_active c }
{
    c.chosen || is_sending(c.phase) || (is_taking(c.phase) && !is_awaiting(c.phase))
}

// While another chip awaits a byte, an active one is only chosen and awaits an address byte too.
fn waits_too(c: Control, other: Control) -> bool
    ensures { result ≡ waits_too c other }
{
    !(is_active(c) && is_awaiting(other.phase)) || awaits_address(c.phase)
}

// At most one chip in all is active, and while the other awaits a byte it waits too.
pub fn side_by_side(c: Control, d: Control) -> bool
    ensures { result ≡ side_by_side c d }
{
    !(is_active(c) && is_active(d)) && waits_too(c, d) && waits_too(d, c)
}
