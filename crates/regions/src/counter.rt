// What a word address sets a counter to (paper, "Write"; sheets 3.3.2).
ghost use Rattle.std.specs.Prelude.{◌≡◌};
ghost use Rattle.regions.specs.Counter.{word_address, counter_in};

use base::word::word_of;

// What the bit A16 is worth.
const A16: u32 = 65_536;

fn word_address(a16: bool, high: u8, low: u8) -> u32
    ensures { result ≡ word_address a16 high low }
{
    let word = u32::from(word_of(high, low));
    if a16 { A16 + word } else { word }
}

// The counter of a region of some size. A region of no bytes takes the word address as it is, as the library's remainder does.
pub fn counter_in(size: u32, a16: bool, high: u8, low: u8) -> u32
    ensures { result ≡ counter_in size a16 high low }
{
    let word = word_address(a16, high, low);
    if size == 0 { word } else { word % size }
}
