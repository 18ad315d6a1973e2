// A page load: which places of a page are loaded, and how a Stop stores their values (paper, "Data" and "Stop"; request E10). The values are
// lent: at most one chip of a line is loading, so the line has room for one page.
#![tactic(auto)]

ghost use Rattle.std.specs.Prelude.{◌≡◌, ◌≤◌, ◌<◌};
ghost use Rattle.parts.specs.Part.{geometry_of};
ghost use Rattle.regions.specs.Page.{place_of};
ghost use Rattle.load.specs.Span.{empty_span, is_empty, dropped, grown, met_at, end, covers, inside_page, runs_on};
ghost use Rattle.load.specs.Load.{load_of, put, store_page};

use parts::part::geometry_of;
use regions::page::{page_of, place_of};

// The bytes of the largest page.
pub const PAGE_MOST: usize = 256;

// The first place that was loaded, and how many were: loaded bytes run on, going round the page. A whole page of 256 bytes does not fit a byte.
#[derive(Clone, Copy, Debug, Default, PartialEq, Eq)]
pub struct Span {
    pub first: u8,
    pub count: u16,
}

impl Span {
    pub fn empty() -> Span
        ensures { result ≡ empty_span }
    {
        Span::default()
    }

    // Nothing is loaded any more. The first place stays, so that a chip at rest whose load is dropped is the same chip.
    pub fn dropped(self) -> Span
        ensures { result ≡ dropped self }
    {
        Span { count: 0, ..self }
    }

    pub fn is_empty(self) -> bool
        ensures { result ≡ is_empty self }
    {
        self.count == 0
    }

    // A byte more, at its place; a page is the most that is counted.
    fn grown(self, page: u32, place: u32) -> Span
        requires page_bound { page ≤ 256 }
        requires place_bound { place < 256 }
        ensures { result ≡ grown page place self }
    {
        Span {
            first: if self.is_empty() {
                place as u8
            } else {
                self.first
            },
            count: (u32::from(self.count) + 1).min(page) as u16,
        }
    }

    // Where a place is met going on from the first. In 64 bits no sum wraps.
    fn met_at(self, page: u32, place: u32) -> u64
        ensures { result ≡ met_at page self place }
    {
        if place < u32::from(self.first) {
            u64::from(place) + u64::from(page)
        } else {
            u64::from(place)
        }
    }

    // Where the place after the last is met.
    fn end(self) -> u64
        ensures { result ≡ end self }
    {
        u64::from(self.first) + u64::from(self.count)
    }

    // Whether a place is one of the loaded ones.
    fn covers(self, page: u32, place: u32) -> bool
        ensures { result ≡ covers page self place }
    {
        self.met_at(page, place) < self.end()
    }

    // Whether the part's page has the first place, and as many as came.
    pub fn inside_page(self, part: u8) -> bool
        ensures { result ≡ inside_page (geometry_of part).page self }
    {
        let page = geometry_of(part).page;
        u32::from(self.first) < page && u32::from(self.count) <= page
    }

    // Whether a byte at an address runs on from those that came.
    pub fn runs_on(self, part: u8, at: u32) -> bool
        ensures { result ≡ runs_on (geometry_of part).page self (place_of (geometry_of part) at) }
    {
        let page = geometry_of(part).page;
        self.is_empty()
            || page <= u32::from(self.count)
            || self.met_at(page, place_of(part, at)) == self.end()
    }

    // A byte more, with its value at the place of an address in its page. The first byte clears what an earlier load has left.
    pub fn put(self, part: u8, at: u32, value: u8, values: &mut [u8; PAGE_MOST]) -> Span
        ensures { (result, values.new) ≡ put (geometry_of part) at value self values.old }
    {
        let page = geometry_of(part).page;
        let place = place_of(part, at);
        if self.is_empty() {
            *values = [0; PAGE_MOST];
        }
        values[place as usize] = value;
        self.grown(page, place)
    }

    // The loaded bytes go to their places in the page that an address lies in; the page's others stay.
    pub fn store_page(self, part: u8, at: u32, values: &[u8; PAGE_MOST], share: &mut [u8])
        ensures { share.new ≡ store_page (geometry_of part) at (load_of self values.now) share.old }
    {
        let size = geometry_of(part).page;
        let first = page_of(part, at) * size;
        for place in 0..size {
            let to = (first + place) as usize;
            // no `get_mut`: of the bytes that it lends a proof then knows nothing (tried: `share.new` stays open)
            if self.covers(size, place) && to < share.len() {
                share[to] = values[place as usize];
            }
        }
    }
}
