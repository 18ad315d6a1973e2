// The bus state lent to a step and moved on where it stands (paper, "The transcript"): one thin wrapper over the step of a bus.
#![tactic(auto)]

ghost use Rattle.inplace.specs.InPlace.{StepsInPlace};

use bus::Bus;
use refusal::Refusal;

// `entry` is the verdict of the bus's entry checks: whoever plays many events asks for it once.
pub fn step_in_place(
    bus: &mut Bus,
    entry: Result<(), Refusal>,
    array: &mut [u8],
    security: &mut [u8],
    word: u16,
) -> Result<u8, Refusal>
    ensures { StepsInPlace bus.old entry array.old security.old word result bus.new array.new security.new }
{
    bus.step_lent(entry, array, security, word)
}
