// The four channels in their order: who requests, the lines, the acknowledge and the end of service.
ghost use Rattle.std.specs.Prelude.{◌≡◌, ◌&&◌, false, get_or, unwrap_or};
ghost use Rattle.ctc_rules.specs.Interrupts.{first_test, first_four, pending_at, serving_ctc, requester_ctc, ieo_ctc, place_ctc, acknowledged_ctc, vector_ctc, released_ctc};
ghost use Rattle.ctc_rules.specs.Record.{interrupt_on};

use basics::Place;
use ctc_rules::{Channel, Ctc};

fn is_pending(c: Channel) -> bool
    ensures { result ≡ (c.ip && interrupt_on c) }
{
    c.ip & (c.control / 128 % 2 == 1)
}

// The first of four tests that passes.
#[tactic(auto, unfolding(ctc_rules::specs::Interrupts::first_test))]
fn first(tests: [bool; 4]) -> Option<Place<4>>
    ensures { unwrap_or result 4 ≡ first_test (get_or tests 0 false) (get_or tests 1 false) (get_or tests 2 false) (get_or tests 3 false) }
{
    Some(Place {
        at: tests.iter().position(|t| *t)?,
    })
}

// The highest with a request pending.
#[tactic(auto, unfolding(ctc_rules::specs::Interrupts::first_four, ctc_rules::specs::Interrupts::pending_at))]
fn pending(d: Ctc) -> Option<Place<4>>
    ensures { unwrap_or result 4 ≡ first_four (pending_at d) }
{
    first(d.channels.map(is_pending))
}

// The highest in service.
#[tactic(auto, unfolding(ctc_rules::specs::Interrupts::serving_ctc, ctc_rules::specs::Interrupts::first_four, ctc_rules::specs::Interrupts::first_test))]
fn serving(d: Ctc) -> Option<Place<4>>
    ensures { unwrap_or result 4 ≡ serving_ctc d }
{
    Some(Place {
        at: d.channels.iter().position(|c| c.ius)?,
    })
}

// The highest requester: the highest with a request pending, where no channel at or above it is in service.
#[tactic(auto, using(crate::proofs::Firsts::requester_by))]
pub(crate) fn requester(d: Ctc) -> Option<Place<4>>
    ensures { unwrap_or result 4 ≡ requester_ctc d }
{
    if !d.iei {
        return None;
    }
    let i = pending(d)?;
    match serving(d) {
        Some(s) if s.index() <= i.index() => None,
        _ => Some(i),
    }
}

#[tactic(auto, unfolding(ctc_rules::specs::Interrupts::ieo_ctc))]
pub(crate) fn ieo(d: Ctc) -> bool
    ensures { result ≡ ieo_ctc d }
{
    d.iei & pending(d).is_none() & serving(d).is_none()
}

// The place of the highest requester in order, 1 to 4, or 0.
// Stays: a number with 0 for none, as the definition has it (ctc_rules/Interrupts.place_ctc) and C gets it (host/Bytes.line_bytes).
#[tactic(auto, unfolding(ctc_rules::specs::Interrupts::place_ctc))]
pub(crate) fn place(d: Ctc) -> u8
    ensures { result ≡ place_ctc d }
{
    match requester(d) {
        Some(i) => 1 + (i.index() as u8),
        None => 0,
    }
}

// The record after an acknowledge: as it was where none requests.
#[tactic(auto, unfolding(ctc_rules::specs::Interrupts::acknowledged_ctc))]
pub(crate) fn acknowledged(d: Ctc) -> Ctc
    ensures { result ≡ acknowledged_ctc d }
{
    let mut e = d;
    if let Some(i) = requester(d) {
        e.channels[i.index()] = Channel {
            ip: false,
            ius: true,
            ..d.channels[i.index()]
        };
    }
    e
}

// The vector of the highest requester.
#[tactic(auto, unfolding(ctc_rules::specs::Interrupts::vector_ctc))]
pub(crate) fn vector(d: Ctc) -> u8
    ensures { result ≡ vector_ctc d }
{
    match requester(d) {
        Some(i) => d.vector / 8 * 8 + 2 * (i.index() as u8),
        None => 0,
    }
}

// The record after the end of service: as it was where none is in service.
#[tactic(auto, unfolding(ctc_rules::specs::Interrupts::released_ctc))]
pub(crate) fn released(d: Ctc) -> Ctc
    ensures { result ≡ released_ctc d }
{
    let mut e = d;
    if let Some(i) = serving(d) {
        e.channels[i.index()].ius = false;
    }
    e
}
