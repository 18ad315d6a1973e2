// Where the array of a chip lies in the array store.
ghost use Rattle.std.specs.Prelude.{◌≡◌};
ghost use Rattle.image.specs.Share.{share_of};

use board::placed;
use board::shares::array_start;
use bus::Bus;
use lineup::places_of;
use std::ops::Range;

// A chip that is not there has the empty share at the store's end.
pub fn share_of(bus: Bus, chip: usize) -> Range<usize>
    ensures { result ≡ share_of bus chip }
{
    let places = places_of(bus.chips);
    array_start(chip, places)..array_start(placed(chip) + 1, places)
}
