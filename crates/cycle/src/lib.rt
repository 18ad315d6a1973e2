// What a Stop does: it starts a write cycle, or ends the exchange without one (paper, "Stop", "Protection", "Security register"
// and "Configuration").
#![tactic(auto)]

ghost use Rattle.std.specs.Prelude.{◌≡◌};
ghost use Rattle.load.specs.Load.{load_of};
ghost use Rattle.cycle.specs.Stop.{id_page_free, stop_load, stop_lock, stop_data, stop};

use configuration::stop_configuration;
use control::Control;
use control::phase::{Data, Phase};
use load::{PAGE_MOST, Span};
use protection::{id_page_protected, is_protected};
use regions::page::in_id_page;

// The page of a counter is written where it is free at this moment and at least one data byte came. Nothing is stored before the Stop.
fn stop_load(
    free: bool,
    at: u32,
    c: Control,
    span: Span,
    values: &[u8; PAGE_MOST],
    share: &mut [u8],
) -> Control
    ensures { (result, share.new) ≡ stop_load free at c (load_of span values.now) share.old }
{
    if !span.is_empty() && free {
        span.store_page(c.part, at, values, share);
        c.busy_now()
    } else {
        c.standby_now()
    }
}

// The read-only half never changes.
fn id_page_free(c: Control) -> bool
    ensures { result ≡ id_page_free c }
{
    in_id_page(c.part, c.securitycounter) && !id_page_protected(c)
}

// With at least one data byte, on a page that is not locked yet.
fn stop_lock(some: bool, c: Control) -> Control
    ensures { result ≡ stop_lock some c }
{
    if some && !c.idlocked {
        c.idlocked_now().busy_now()
    } else {
        c.standby_now()
    }
}

fn stop_data(
    kind: Data,
    c: Control,
    span: Span,
    values: &[u8; PAGE_MOST],
    array: &mut [u8],
    security: &mut [u8],
) -> Control
    ensures { (result, array.new, security.new) ≡ stop_data kind c (load_of span values.now) array.old security.old }
{
    match kind {
        Data::ToArray => stop_load(!is_protected(c), c.arraycounter, c, span, values, array),
        Data::ToSecurity => stop_load(
            id_page_free(c),
            c.securitycounter,
            c,
            span,
            values,
            security,
        ),
        Data::ToConfiguration(came) => stop_configuration(came, c),
        Data::ToLock(some) => stop_lock(some, c),
        Data::ToNowhere => c.standby_now(),
    }
}

// A Stop. A busy chip takes no notice. The shares are two slices and no struct of two (tried): a contract would have to say of such a struct too
// that each reference is still the one that was lent.
#[tactic(auto, unfolding(crate::specs::Stop::stop))]
pub fn stop(
    c: Control,
    span: Span,
    values: &[u8; PAGE_MOST],
    array: &mut [u8],
    security: &mut [u8],
) -> Control
    ensures { (result, array.new, security.new) ≡ stop c (load_of span values.now) array.old security.old }
{
    match c.phase {
        Phase::Busy => c,
        Phase::TakesData(kind) => stop_data(kind, c, span, values, array, security),
        _ => c.standby_now(),
    }
}
