// A chip's own part of what makes a state well formed (paper, "Well formed means").
#![tactic(auto)]

pub mod beside;

ghost use Rattle.std.specs.Prelude.{◌≡◌};
ghost use Rattle.wellformed.specs.Wellformed.{is_set_up, counter_fits, counters_fit, source_fits, data_fits, word_fits, phase_fits, unused_bits_clear, busy_not_chosen, only_able_chosen, control_fits, next_runs_on, span_fits, well_formed, heeds_start};

use chip::Chip;
use control::Control;
use control::phase::{
    Data, Phase, Source, Word, awaits_address, is_busy, is_sending, is_taking, takes_data,
};
use load::Span;
use parts::part::{Geometry, geometry_of, is_part};

// Configuration byte 0 has no bit but 1 and 0.
const CONFIG0_END: u8 = 4;

const ID_BYTES: u8 = 3;

// What is sent is something that the part has (request E7), and the place in the ID is one of its bytes.
fn source_fits(g: Geometry, source: Source) -> bool
    ensures { result ≡ source_fits g source }
{
    match source {
        Source::FromArray => true,
        Source::FromId(place) => g.identifies && place < ID_BYTES,
        Source::FromSecurity | Source::FromConfiguration(_) | Source::FromNothing => g.registers,
    }
}

// What is taken, and what is awaited, likewise.
fn data_fits(g: Geometry, kind: Data) -> bool
    ensures { result ≡ data_fits g kind }
{
    matches!(kind, Data::ToArray) || g.registers
}

fn word_fits(g: Geometry, word: Word) -> bool
    ensures { result ≡ word_fits g word }
{
    matches!(word, Word::ArrayFirst(_) | Word::ArraySecond(..)) || g.registers
}

fn phase_fits(g: Geometry, phase: Phase) -> bool
    ensures { result ≡ phase_fits g phase }
{
    match phase {
        Phase::Standby | Phase::Busy | Phase::AwaitsAddress => true,
        Phase::AwaitsChoice => g.identifies,
        Phase::AwaitsWord(word) => word_fits(g, word),
        Phase::TakesData(kind) => data_fits(g, kind),
        Phase::SendsByte(source) => source_fits(g, source),
    }
}

fn is_set_up(c: Control) -> bool
    ensures { result ≡ is_set_up c }
{
    is_part(c.part) && c.strap < geometry_of(c.part).straps
}

// A counter that has no region is 0 (request E7).
fn counter_fits(size: u32, at: u32) -> bool
    ensures { result ≡ counter_fits size at }
{
    if size == 0 { at == 0 } else { at < size }
}

fn counters_fit(c: Control) -> bool
    ensures { result ≡ counters_fit c }
{
    let g = geometry_of(c.part);
    counter_fits(g.array, c.arraycounter) && counter_fits(g.security, c.securitycounter)
}

// Of a part without registers every bit is unused, and so is the lock of its ID page (request E7).
fn unused_bits_clear(c: Control) -> bool
    ensures { result ≡ unused_bits_clear c }
{
    if geometry_of(c.part).registers {
        c.config0 < CONFIG0_END
    } else {
        c.config0 == 0 && c.config1 == 0 && !c.idlocked
    }
}

fn busy_not_chosen(c: Control) -> bool
    ensures { result ≡ busy_not_chosen c }
{
    !(is_busy(c.phase) && c.chosen)
}

// A chip that does not identify itself is not chosen (request E7).
fn only_able_chosen(c: Control) -> bool
    ensures { result ≡ only_able_chosen c }
{
    !c.chosen || geometry_of(c.part).identifies
}

fn control_fits(c: Control) -> bool
    ensures { result ≡ control_fits c }
{
    is_set_up(c)
        && counters_fit(c)
        && unused_bits_clear(c)
        && phase_fits(geometry_of(c.part), c.phase)
        && busy_not_chosen(c)
        && only_able_chosen(c)
}

// Where the next byte would be loaded, it runs on from those that came.
fn next_runs_on(phase: Phase, c: Control, span: Span) -> bool
    ensures { result ≡ next_runs_on phase c span }
{
    match phase {
        Phase::TakesData(Data::ToArray) => span.runs_on(c.part, c.arraycounter),
        Phase::TakesData(Data::ToSecurity) => span.runs_on(c.part, c.securitycounter),
        _ => true,
    }
}

// Only a chip that takes data holds a load, inside its page, and the next byte runs on.
fn span_fits(c: Control, span: Span) -> bool
    ensures { result ≡ span_fits c span }
{
    span.inside_page(c.part)
        && (span.is_empty() || takes_data(c.phase))
        && next_runs_on(c.phase, c, span)
}

#[tactic(auto, unfolding(crate::specs::Wellformed::well_formed))]
pub fn well_formed(chip: Chip) -> bool
    ensures { result ≡ well_formed chip }
{
    control_fits(chip.control) && span_fits(chip.control, chip.span)
}

// While a Start is remembered a chip takes an address byte or nothing, and only then it awaits one (request E8).
pub fn heeds_start(started: bool, phase: Phase) -> bool
    ensures { result ≡ heeds_start started phase }
{
    if started {
        !is_sending(phase) && (!is_taking(phase) || awaits_address(phase))
    } else {
        !awaits_address(phase)
    }
}
