// Word-address bytes, of the array and of the registers (paper, "Write", "Security register" and "Configuration"; sheets 3.3.2).
#![tactic(auto)]

ghost use Rattle.std.specs.Prelude.{◌≡◌};
ghost use Rattle.wordaddress.specs.WordAddress.{register_of, take_array_second, take_register_first, take_register_second, take_security, take_lock, take_word};

use control::phase::{Came, Data, Phase, Shown, Word};
use control::{Answered, Control};
use parts::part::geometry_of;
use regions::counter::counter_in;

// What the first word-address byte after a 1011 address byte names (Table 3-3).
#[derive(Clone, Copy, Debug, PartialEq, Eq)]
pub enum Register {
    Security,
    Configuration,
    Lock,
    Nowhere,
}

// Bits 3 and 2 of a register's word address, and bits 3 to 0 of the lock command.
const REGISTER: u8 = 0b10;

const LOCK: u8 = 0b0110;

pub fn register_of(first: u8) -> Register
    ensures { result ≡ register_of first }
{
    if first / 4 % 4 == REGISTER {
        if first / 128 == 0 {
            Register::Security
        } else {
            Register::Configuration
        }
    } else if first % 16 == LOCK {
        Register::Lock
    } else {
        Register::Nowhere
    }
}

// The array counter is set on the second byte.
fn take_array_second(a16: bool, first: u8, c: Control, byte: u8) -> Answered
    ensures { result ≡ take_array_second a16 first c byte }
{
    let at = counter_in(geometry_of(c.part).array, a16, first, byte);
    c.arraycounter_at(at).acked(Phase::TakesData(Data::ToArray))
}

// The lock command is not acknowledged once the ID page is locked (sheets 10.4.2).
fn take_register_first(c: Control, byte: u8) -> Answered
    ensures { result ≡ take_register_first c byte }
{
    if c.idlocked && register_of(byte) == Register::Lock {
        c.silent(Phase::Standby)
    } else {
        c.acked(Phase::AwaitsWord(Word::RegisterSecond(byte)))
    }
}

// Only a security address sets the security counter. A16 means nothing to it. No twin of `take_array_second`: it also says what a 1011 read shows.
fn take_security(first: u8, c: Control, byte: u8) -> Answered
    ensures { result ≡ take_security first c byte }
{
    let at = counter_in(geometry_of(c.part).security, false, first, byte);
    c.securitycounter_at(at)
        .showing(Shown::ShowsSecurity)
        .acked(Phase::TakesData(Data::ToSecurity))
}

fn take_lock(c: Control) -> Answered
    ensures { result ≡ take_lock c }
{
    if c.idlocked {
        c.silent(Phase::Standby)
    } else {
        c.showing(Shown::ShowsNothing)
            .acked(Phase::TakesData(Data::ToLock(false)))
    }
}

// The word address is whole: from now on a 1011 read shows what it names.
fn take_register_second(first: u8, c: Control, byte: u8) -> Answered
    ensures { result ≡ take_register_second first c byte }
{
    match register_of(first) {
        Register::Security => take_security(first, c, byte),
        Register::Configuration => c
            .showing(Shown::ShowsConfiguration)
            .acked(Phase::TakesData(Data::ToConfiguration(Came::Zero))),
        Register::Lock => take_lock(c),
        Register::Nowhere => c
            .showing(Shown::ShowsNothing)
            .acked(Phase::TakesData(Data::ToNowhere)),
    }
}

pub fn take_word(word: Word, c: Control, byte: u8) -> Answered
    ensures { result ≡ take_word word c byte }
{
    match word {
        Word::ArrayFirst(a16) => c.acked(Phase::AwaitsWord(Word::ArraySecond(a16, byte))),
        Word::ArraySecond(a16, first) => take_array_second(a16, first, c, byte),
        Word::RegisterFirst => take_register_first(c, byte),
        Word::RegisterSecond(first) => take_register_second(first, c, byte),
    }
}
