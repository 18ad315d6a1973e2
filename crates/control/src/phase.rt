// Where a chip stands in an exchange. Each case carries what only it needs.
ghost use Rattle.std.specs.Prelude.{◌≡◌};
ghost use Rattle.control.specs.Phase.{is_busy, takes_data, is_sending, is_taking, is_awaiting, awaits_address};

#[derive(Clone, Copy, Debug, PartialEq, Eq)]
pub enum Phase {
    Standby,
    Busy,
    // The next byte is an address byte.
    AwaitsAddress,
    // The next byte is the one after F8h.
    AwaitsChoice,
    AwaitsWord(Word),
    TakesData(Data),
    SendsByte(Source),
}

// Which word-address byte comes next: of the array with A16, of a register; the second one with the first.
#[derive(Clone, Copy, Debug, PartialEq, Eq)]
pub enum Word {
    ArrayFirst(bool),
    ArraySecond(bool, u8),
    RegisterFirst,
    RegisterSecond(u8),
}

// Where data goes. Lock data knows whether a byte came.
#[derive(Clone, Copy, Debug, PartialEq, Eq)]
pub enum Data {
    ToArray,
    ToSecurity,
    ToConfiguration(Came),
    ToLock(bool),
    ToNowhere,
}

// The bytes that came for the configuration register. More than three is one case.
#[derive(Clone, Copy, Debug, PartialEq, Eq)]
pub enum Came {
    Zero,
    One(u8),
    Two(u8, u8),
    Three(u8, u8, u8),
    More,
}

// Where a byte that is read comes from: configuration with whether it is byte 1, ID with its place.
#[derive(Clone, Copy, Debug, PartialEq, Eq)]
pub enum Source {
    FromArray,
    FromSecurity,
    FromConfiguration(bool),
    FromId(u8),
    FromNothing,
}

// What a 1011 read shows.
#[derive(Clone, Copy, Debug, PartialEq, Eq)]
pub enum Shown {
    ShowsSecurity,
    ShowsConfiguration,
    ShowsNothing,
}

pub fn is_busy(phase: Phase) -> bool
    ensures { result ≡ is_busy phase }
{
    matches!(phase, Phase::Busy)
}

// Only such a chip holds a load.
pub fn takes_data(phase: Phase) -> bool
    ensures { result ≡ takes_data phase }
{
    matches!(phase, Phase::TakesData(_))
}

pub fn is_sending(phase: Phase) -> bool
    ensures { result ≡ is_sending phase }
{
    matches!(phase, Phase::SendsByte(_))
}

// Awaiting an address byte, or the byte after F8h, counts as taking (paper, "Well formed means").
pub fn is_taking(phase: Phase) -> bool
    ensures { result ≡ is_taking phase }
{
    matches!(
        phase,
        Phase::AwaitsAddress | Phase::AwaitsChoice | Phase::AwaitsWord(_) | Phase::TakesData(_)
    )
}

// Whether the next byte may be for any chip.
pub fn is_awaiting(phase: Phase) -> bool
    ensures { result ≡ is_awaiting phase }
{
    matches!(phase, Phase::AwaitsAddress | Phase::AwaitsChoice)
}

pub fn awaits_address(phase: Phase) -> bool
    ensures { result ≡ awaits_address phase }
{
    matches!(phase, Phase::AwaitsAddress)
}
