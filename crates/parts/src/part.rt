// The parts, their figures and abilities (paper, the table of "What the bench plays"; ID bytes: the sheets' Table 11-1).
ghost use Rattle.std.specs.Prelude.{◌≡◌};
ghost use Rattle.parts.specs.Part.{is_part, geometry_of};

// Source document 000.
#[derive(Clone, Copy)]
pub struct Part24CSM01;

impl Part24CSM01 {
    pub const NUMBER: u8 = 1;

    pub const ARRAY: u32 = 131_072;

    pub const PAGE: u32 = 256;

    pub const ZONE: u32 = 16_384;

    pub const SECURITY: u32 = 512;

    pub const READ_ONLY: u32 = 256;

    pub const ID_PAGE: u32 = 256;

    pub const STRAPS: u8 = 4;

    pub const ID: [u8; 3] = [0x00, 0xD0, 0xD0];

    pub const REGISTERS: bool = true;

    pub const IDENTIFIES: bool = true;
}

// Source document 001.
#[derive(Clone, Copy)]
pub struct Part24CS32;

impl Part24CS32 {
    pub const NUMBER: u8 = 2;

    pub const ARRAY: u32 = 4_096;

    pub const PAGE: u32 = 32;

    pub const ZONE: u32 = 512;

    pub const SECURITY: u32 = 64;

    pub const READ_ONLY: u32 = 32;

    pub const ID_PAGE: u32 = 32;

    pub const STRAPS: u8 = 8;

    pub const ID: [u8; 3] = [0x00, 0xD0, 0xA8];

    pub const REGISTERS: bool = true;

    pub const IDENTIFIES: bool = true;
}

// Source document 002. It has no zones and no ID: these figures are never read (request E7).
#[derive(Clone, Copy)]
pub struct PartAT24CM01;

impl PartAT24CM01 {
    pub const NUMBER: u8 = 3;

    pub const ARRAY: u32 = 131_072;

    pub const PAGE: u32 = 256;

    pub const ZONE: u32 = 16_384;

    pub const SECURITY: u32 = 0;

    pub const READ_ONLY: u32 = 0;

    pub const ID_PAGE: u32 = 0;

    pub const STRAPS: u8 = 4;

    pub const ID: [u8; 3] = [0x00, 0x00, 0x00];

    pub const REGISTERS: bool = false;

    pub const IDENTIFIES: bool = false;
}

// A part's figures by value: sizes in bytes, the number of straps, the three ID bytes; and its abilities: it has
// registers, which 1011 bytes are for, and it identifies itself, which F8h and F9h are for.
#[derive(Clone, Copy, Debug, PartialEq, Eq)]
pub struct Geometry {
    pub array: u32,
    pub page: u32,
    pub zone: u32,
    pub security: u32,
    pub readonly: u32,
    pub idpage: u32,
    pub straps: u8,
    pub id: [u8; 3],
    pub registers: bool,
    pub identifies: bool,
}

// A part's figures, out of its constants. No trait: a clause names a trait's constant only by a ghost member beside it, so that each figure of each
// part would stand twice.
macro_rules! figures {
    ($part:ident) => {
        Geometry {
            array: $part::ARRAY,
            page: $part::PAGE,
            zone: $part::ZONE,
            security: $part::SECURITY,
            readonly: $part::READ_ONLY,
            idpage: $part::ID_PAGE,
            straps: $part::STRAPS,
            id: $part::ID,
            registers: $part::REGISTERS,
            identifies: $part::IDENTIFIES,
        }
    };
}

pub fn is_part(part: u8) -> bool
    ensures { result ≡ is_part part }
{
    matches!(
        part,
        Part24CSM01::NUMBER | Part24CS32::NUMBER | PartAT24CM01::NUMBER
    )
}

// A number that is no part has the 24CS32's figures, so that every function above is total; no bus lets one through.
#[tactic(auto, unfolding(crate::specs::Part::geometry_of))]
pub fn geometry_of(part: u8) -> Geometry
    ensures { result ≡ geometry_of part }
{
    match part {
        Part24CSM01::NUMBER => figures!(Part24CSM01),
        PartAT24CM01::NUMBER => figures!(PartAT24CM01),
        _ => figures!(Part24CS32),
    }
}
