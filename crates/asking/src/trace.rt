// The word trace: each answer also in words.
ghost use Rattle.std.specs.Prelude.{◌≡◌};
ghost use Rattle.asking.specs.Trace.{asks_trace};

use crate::opens;

// How long the word is.
const TRACE: usize = 5;

pub fn asks_trace(word: &[u8]) -> bool
    ensures { result ≡ asks_trace word.now }
{
    word.len() == TRACE && opens(b"trace", word)
}
