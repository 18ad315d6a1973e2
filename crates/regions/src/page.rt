// Pages of an array or a security register, and going round (paper, "Data" and "Read").
ghost use Rattle.std.specs.Prelude.{◌≡◌};
ghost use Rattle.parts.specs.Part.{geometry_of};
ghost use Rattle.regions.specs.Page.{page_of, place_of, next_in, next_in_page, in_id_page};

use parts::part::geometry_of;

pub fn page_of(part: u8, at: u32) -> u32
    ensures { result ≡ page_of (geometry_of part) at }
{
    at / geometry_of(part).page
}

// Where an address lies in its page.
pub fn place_of(part: u8, at: u32) -> u32
    ensures { result ≡ place_of (geometry_of part) at }
{
    at % geometry_of(part).page
}

// The next address of a region of some size: after its last comes 0.
pub fn next_in(size: u32, at: u32) -> u32
    ensures { result ≡ next_in size at }
{
    match at.checked_add(1) {
        Some(next) if next < size => next,
        _ => 0,
    }
}

// The next address of a load: it goes round the page.
pub fn next_in_page(part: u8, at: u32) -> u32
    ensures { result ≡ next_in_page (geometry_of part) at }
{
    let page = geometry_of(part).page;
    let next = next_in(page, at % page);
    at / page * page + next
}

// Whether an address of the security register lies in the ID page, which follows the read-only half (sheets, Table 10-1).
pub fn in_id_page(part: u8, at: u32) -> bool
    ensures { result ≡ in_id_page (geometry_of part) at }
{
    let g = geometry_of(part);
    (g.readonly..g.readonly + g.idpage).contains(&at)
}
