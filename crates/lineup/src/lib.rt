// The chips of a line beside each other: the board that they make, and what makes a state well formed.
#![tactic(auto)]

ghost use Rattle.std.specs.Prelude.{◌≡◌, ℕ, take};
ghost use Rattle.std.specs.List.{list_all, enumerate_from};
ghost use Rattle.control.specs.declared.Control.{Control};
ghost use Rattle.wellformed.specs.Beside.{side_by_side};
ghost use Rattle.wellformed.specs.Wellformed.{heeds_start};
ghost use Rattle.wellformed.specs.Wellformed as one;
ghost use Rattle.lineup.specs.Chips.{places_of, controls_of};
ghost use Rattle.lineup.specs.Wellformed.{well_formed};

use board::{PLACES, Place, board_verdict, placed};
use chip::Chip;
use control::Control;
use wellformed::beside::side_by_side;
use wellformed::heeds_start;

// Every chip's part and strap, those past the count too.
#[tactic(auto, unfolding(crate::specs::Chips::places_of))]
pub fn places_of(chips: [Chip; PLACES]) -> [Place; PLACES]
    ensures { result ≡ places_of chips }
{
    chips.map(|chip| Place {
        part: chip.control.part,
        strap: chip.control.strap,
    })
}

// Every chip without its load, those past the count too: what one chip is beside another needs no load.
#[tactic(auto, unfolding(crate::specs::Chips::controls_of))]
pub fn controls_of(chips: [Chip; PLACES]) -> [Control; PLACES]
    ensures { result ≡ controls_of chips }
{
    chips.map(|chip| chip.control)
}

// Each chip by itself.
fn chips_fit(chips: &[Chip]) -> bool
    ensures { result ≡ list_all one.well_formed chips.now }
{
    chips.iter().all(|chip| wellformed::well_formed(*chip))
}

// A chip and those before it.
fn beside_earlier(control: Control, earlier: &[Control]) -> bool
    ensures { result ≡ list_all (side_by_side control) earlier.now }
{
    earlier.iter().all(|other| side_by_side(control, *other))
}

fn chips_apart(controls: &[Control]) -> bool
    ensures { result ≡ list_all (λ (q : ℕ × Control). list_all (side_by_side q.1) (take q.0 controls.now)) (enumerate_from 0 controls.now) }
{
    let mut each = controls.iter().enumerate();
    each.all(|(i, control)| beside_earlier(*control, &controls[..i]))
}

// Each chip and the Start that the line remembers, or none.
fn chips_heed(started: bool, controls: &[Control]) -> bool
    ensures { result ≡ list_all (λ (c : Control). heeds_start started c.phase) controls.now }
{
    controls
        .iter()
        .all(|control| heeds_start(started, control.phase))
}

// Whatever numbers a state holds, it is well formed or not. Count and chips as the definition has them.
pub fn well_formed(count: usize, started: bool, chips: [Chip; PLACES]) -> bool
    ensures { result ≡ well_formed count started chips }
{
    let n = placed(count);
    let controls = controls_of(chips);
    board_verdict(count, places_of(chips)).is_ok()
        && chips_fit(&chips[..n])
        && chips_apart(&controls[..n])
        && chips_heed(started, &controls[..n])
}
