// The board that is asked for: how many chips it has, and where, and how much of a memory it fills.
ghost use Rattle.std.specs.Prelude.{◌≡◌, ◌≤◌};
ghost use Rattle.placing.specs.Layout.{bare, with_chip, paper_board, or_paper, array_end, security_end};

use board::shares::{array_start, security_start};
use board::{PLACES, Place};
use parts::part::Part24CS32;

#[derive(Clone, Copy, Debug, PartialEq, Eq)]
pub struct Board {
    pub count: usize,
    pub places: [Place; PLACES],
}

impl Board {
    pub fn bare() -> Self
        ensures { result ≡ bare }
    {
        Self {
            count: 0,
            places: [Place { part: 0, strap: 0 }; PLACES],
        }
    }

    // The next chip stands at a place. A board that is full stays as it is.
    pub fn with_chip(self, place: Place) -> Self
        ensures { result ≡ with_chip self place }
    {
        if PLACES <= self.count {
            return self;
        }
        let mut places = self.places;
        places[self.count] = place;
        Self {
            count: self.count + 1,
            places,
        }
    }

    // Three 24CS32 at straps 0, 1, 2 (paper, "The transcript").
    pub fn of_paper() -> Self
        ensures { result ≡ paper_board }
    {
        let part = Part24CS32::NUMBER;
        Self {
            count: 3,
            places: [
                Place { part, strap: 0 },
                Place { part, strap: 1 },
                Place { part, strap: 2 },
                Place { part: 0, strap: 0 },
            ],
        }
    }

    // The board itself, or where it has no chips the paper's.
    pub fn or_paper(self) -> Self
        ensures { result ≡ or_paper self }
    {
        if self.count == 0 {
            Self::of_paper()
        } else {
            self
        }
    }

    // Where its arrays end in a memory of some length: no later than the memory does. Two public names, one for each store.
    pub fn array_end(self, most: usize) -> usize
        ensures upper_bound { result ≤ most }
        ensures value { result ≡ array_end self most }
    {
        array_start(self.count, self.places).min(most)
    }

    // Its security registers likewise.
    pub fn security_end(self, most: usize) -> usize
        ensures upper_bound { result ≤ most }
        ensures value { result ≡ security_end self most }
    {
        security_start(self.count, self.places).min(most)
    }
}
