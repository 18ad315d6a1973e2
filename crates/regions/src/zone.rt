// The eight zones of an array (paper, "Protection"; sheets 6.6.2).
ghost use Rattle.std.specs.Prelude.{◌≡◌};
ghost use Rattle.parts.specs.Part.{geometry_of};
ghost use Rattle.regions.specs.Zone.{zone_of};

use parts::part::geometry_of;

pub const ZONES: u32 = 8;

// The zone of an address: the quotient by the zone size. Past the array there is none, and ZONES says so (D15): a number and no Option,
// since `zone_edges` computes 8 there.
pub fn zone_of(part: u8, at: u32) -> u32
    ensures { result ≡ zone_of (geometry_of part) at }
{
    let g = geometry_of(part);
    if at < g.array { at / g.zone } else { ZONES }
}
