// The page query: a page of a chip where it lies in its store, not a copy, and the question whether there is one (paper, "The two
// memories").
#![tactic(auto)]

ghost use Rattle.std.specs.Prelude.{◌≡◌, ◌+◌, ◌<◌, ◌≤◌, length};
ghost use Rattle.pages.specs.Part.{PartOf};
ghost use Rattle.pages.specs.Page.{pages_of, page_exists, page_start, page_verdict, page_shown, Shows};
ghost use Rattle.parts.specs.Part.{geometry_of};
ghost use Rattle.board.specs.Shares.{figures_at};

use board::shares::{array_start, security_start};
use board::{PLACES, Place};
use bus::Bus;
use lineup::places_of;
use parts::part::geometry_of;
use refusal::Refusal;

// The number of the array store; the security store is 1. A number and no enum: any may be asked for, and 7 refuses the others (paper, "The two
// memories").
const ARRAY: u8 = 0;

const SECURITY: u8 = 1;

// How many pages the store of a part has.
fn pages_of(part: u8, store: u8) -> u32
    ensures { result ≡ pages_of (geometry_of part) store }
{
    let figures = geometry_of(part);
    let region = if store == ARRAY {
        figures.array
    } else {
        figures.security
    };
    region / figures.page
}

// Chip, store and page exist. A page number may be as large as its type allows.
fn page_exists(count: usize, places: [Place; PLACES], chip: usize, store: u8, page: usize) -> bool
    requires { count ≤ 4 }
    ensures { result ≡ page_exists count places chip store page }
{
    chip < count && store <= SECURITY && page < pages_of(places[chip].part, store) as usize
}

// The question: 0, or 10, then 5, then 7.
#[tactic(auto, unfolding(crate::specs::Page::page_verdict))]
pub fn page_verdict(
    bus: Bus,
    array: &[u8],
    security: &[u8],
    chip: usize,
    store: u8,
    page: usize,
) -> Result<(), Refusal>
    ensures { result ≡ page_verdict bus array.now security.now chip store page }
{
    bus.entry_verdict(array, security)?;
    if page_exists(bus.count, places_of(bus.chips), chip, store, page) {
        Ok(())
    } else {
        Err(Refusal::WrongValue)
    }
}

// Where an existing page starts in its store.
fn page_start(places: [Place; PLACES], chip: usize, store: u8, page: usize) -> usize
    requires { (chip < 4) × (page < pages_of (figures_at places chip) store) }
    ensures { result ≡ page_start places chip store page }
{
    let start = if store == ARRAY {
        array_start(chip, places)
    } else {
        security_start(chip, places)
    };
    start + page * geometry_of(places[chip].part).page as usize
}

fn between(store: &[u8], at: usize, size: usize) -> &[u8]
    requires { at + size ≤ length store.now }
    ensures { PartOf store.entry result at size }
{
    &store[at..at + size]
}

// The query: the page as part of whichever of the two stores was named; where there is none, the empty part at the start of the array
// store.
pub fn page<'a>(
    bus: Bus,
    array: &'a [u8],
    security: &'a [u8],
    chip: usize,
    store: u8,
    page: usize,
) -> &'a [u8]
    ensures { Shows (page_shown bus array.entry security.entry chip store page) result }
{
    let Ok(()) = page_verdict(bus, array, security, chip, store, page) else {
        return between(array, 0, 0);
    };
    let places = places_of(bus.chips);
    let at = page_start(places, chip, store, page);
    let size = geometry_of(places[chip].part).page as usize;
    let shown = if store == ARRAY { array } else { security };
    between(shown, at, size)
}
