// Where the status of a run is to be told: status:D names a descriptor. It is for launchers, since a program of Rattle ends with 0.
ghost use Rattle.std.specs.Prelude.{◌≡◌};
ghost use Rattle.asking.specs.Status.{status_asked};

use crate::opens;
use transcript::digit::digit_value;

// How long the word is, and where the descriptor's digit stands in it.
const STATUS: usize = 8;

const DESCRIPTOR: usize = 7;

// The descriptor.
pub fn status_asked(word: &[u8]) -> Option<u8>
    ensures { result ≡ status_asked word.now }
{
    if word.len() == STATUS && opens(b"status:", word) {
        digit_value(word[DESCRIPTOR])
    } else {
        None
    }
}
