// Chips as they leave the factory: erased, and with a serial number each (paper, "The transcript"; sheets, section 10.1).
#![tactic(auto)]

ghost use Rattle.std.specs.Prelude.{◌<◌, ◌≤◌, ◌^◌, ◌≡◌, length};
ghost use Rattle.factory.specs.Memory.{erased, arrays_size, registers_size};
ghost use Rattle.factory.specs.Serial.{marked, serial_byte, serial, serials};

use base::share::put;
use board::shares::security_start;
use board::{PLACES, Place, placed};
use parts::part::{Part24CSM01, geometry_of};

// A byte of an erased memory.
const ERASED: u8 = 0xFF;

// Four arrays, and four security registers, of the largest part.
const ARRAYS: usize = PLACES * Part24CSM01::ARRAY as usize;

const REGISTERS: usize = PLACES * Part24CSM01::SECURITY as usize;

// An erased memory of any size.
fn erased_memory<const N: usize>() -> [u8; N]
    ensures { result ≡ erased N }
{
    [ERASED; N]
}

// The arrays of the largest board, erased. The length is said by itself, so that no caller has to count the bytes.
pub fn erased_arrays() -> [u8; ARRAYS]
    ensures arrays_size_value { arrays_size ≡ length result }
    ensures value { result ≡ erased arrays_size }
{
    erased_memory()
}

// Its security registers likewise. Two public names, one for each store, over `erased_memory`.
pub fn erased_registers() -> [u8; REGISTERS]
    ensures registers_size_value { registers_size ≡ length result }
    ensures value { result ≡ erased registers_size }
{
    erased_memory()
}

// The bytes of a serial number.
const SERIAL: usize = 16;

// Every byte of chip k's serial number is this and k.
const FIRST_SERIAL: u8 = 0x10;

#[tactic(auto, unfolding(crate::specs::Serial::marked, base::specs::Fold::up_to))]
fn mark(byte: u8, at: usize, security: &mut [u8])
    requires { at ≤ 2 ^ 32 }
    ensures { security.new ≡ marked byte at security.old }
{
    for i in 0..SERIAL {
        put(byte, at + i, security);
    }
}

fn serial_byte(chip: usize) -> u8
    requires { chip ≤ 4 }
    ensures { result ≡ serial_byte chip }
{
    FIRST_SERIAL + chip as u8
}

// The serial number of a chip stands at the start of its share; a part without registers has none (request E7).
fn mark_serial(chip: usize, places: [Place; PLACES], security: &mut [u8])
    requires { chip < 4 }
    ensures { security.new ≡ serial places chip security.old }
{
    if geometry_of(places[chip].part).registers {
        mark(serial_byte(chip), security_start(chip, places), security);
    }
}

// Each chip's in its own share; all else stays. Count and places as set-up has them.
#[tactic(auto, using(base::proofs::Fold::up_none, base::proofs::Fold::up_more))]
pub fn mark_serials(count: usize, places: [Place; PLACES], security: &mut [u8])
    ensures { security.new ≡ serials count places security.old }
{
    for k in 0..placed(count) {
        mark_serial(k, places, security);
    }
}
