// What a host in C, Rust or another language calls, by the exports of `host_c`: the calls by value, on a state that is the device's image in
// the host's own buffer. hosts/wolfscarer.h declares them. A slice is a pointer and then a length.
#![tactic(auto)]

mod answers;
mod hosted;

ghost use Rattle.std.specs.Prelude.{◌≡◌};
ghost use Rattle.theorems.specs.Used.{of};
ghost use Rattle.bodies.specs.Written.{image_of};
ghost use Rattle.image.specs.Pointed.{image_z8536};
ghost use Rattle.ctc_image.specs.Layout.{image_ctc};
ghost use Rattle.rules.specs.Record.{fresh_of};
ghost use Rattle.z8536.specs.Z8536.{fresh_z8536};
ghost use Rattle.ctc_rules.specs.Record.{fresh_ctc};
ghost use Rattle.host.specs.Calls.{called, host_event, host_event_z8536, host_event_ctc, host_end_ctc};
ghost use Rattle.host.specs.Calls.{host_lines, host_lines_z8536, host_lines_ctc, fresh_code, fresh_state, length_at};

use ctc_rules::Ctc;
use rules::{Device, Event};
use z8536::Z8536;

// A length by its number.
// Stays: C asks by a number, as `length_at` says; past the last it is answered 0.
#[tactic(auto, unfolding(crate::specs::Calls::length_at))]
pub fn wolfscarer_length(what: u32) -> usize
    ensures { result ≡ length_at what }
{
    match what {
        0 => Device::IMAGE,
        1 => Device::OLD_IMAGE,
        2 => Z8536::IMAGE,
        3 => Ctc::IMAGE,
        4 => answers::ANSWER,
        5 => answers::CTC,
        6 => answers::LINES,
        _ => 0,
    }
}

// The fresh Z8036's image, of version 2, into a buffer of exactly its length. Codes: 7 for another length, with nothing written, else 0.
pub fn wolfscarer_z8036_fresh(state: &mut [u8]) -> u8
    ensures { (result ≡ fresh_code (image_of fresh_of) state.old) × (state.new ≡ fresh_state (image_of fresh_of) state.old) }
{
    hosted::fresh::<Device>(state)
}

// An event of a Z8036, in place. Codes: the state's 7, 8, 7, 9, then 7 for an answer buffer that is too short, with neither buffer
// written; else the event's.
// Stays: C hands over the kind and three numbers, and this call has its name and its arguments (hosts/wolfscarer.h).
#[tactic(auto, unfolding(crate::specs::Calls::hosted, crate::specs::Calls::host_event))]
pub fn wolfscarer_z8036_event(
    state: &mut [u8],
    kind: u32,
    a: u32,
    b: u32,
    c: u32,
    answer: &mut [u8],
) -> u8
    ensures { called result state.new answer.new ≡ host_event state.old (of kind a b c) answer.old }
{
    hosted::event::<Device>(state, Event { kind, a, b, c }, answer)
}

// INT, IEO and the highest requester's place of a Z8036, with no event. Codes as an event's, else 0.
#[tactic(auto, unfolding(crate::specs::Calls::hosted_lines, crate::specs::Calls::host_lines))]
pub fn wolfscarer_z8036_lines(state: &[u8], answer: &mut [u8]) -> u8
    ensures { called result state.now answer.new ≡ host_lines state.now answer.old }
{
    hosted::lines::<Device>(state, answer)
}

// The image of the fresh Z8536, likewise.
pub fn wolfscarer_z8536_fresh(state: &mut [u8]) -> u8
    ensures { (result ≡ fresh_code (image_z8536 fresh_z8536) state.old) × (state.new ≡ fresh_state (image_z8536 fresh_z8536) state.old) }
{
    hosted::fresh::<Z8536>(state)
}

// An event of a Z8536.
// Stays: C hands over the kind and three numbers, and this call has its name and its arguments (hosts/wolfscarer.h).
#[tactic(auto, unfolding(crate::specs::Calls::hosted, crate::specs::Calls::host_event_z8536))]
pub fn wolfscarer_z8536_event(
    state: &mut [u8],
    kind: u32,
    a: u32,
    b: u32,
    c: u32,
    answer: &mut [u8],
) -> u8
    ensures { called result state.new answer.new ≡ host_event_z8536 state.old (of kind a b c) answer.old }
{
    hosted::event::<Z8536>(state, Event { kind, a, b, c }, answer)
}

// The lines of a Z8536.
#[tactic(auto, unfolding(crate::specs::Calls::hosted_lines, crate::specs::Calls::host_lines_z8536))]
pub fn wolfscarer_z8536_lines(state: &[u8], answer: &mut [u8]) -> u8
    ensures { called result state.now answer.new ≡ host_lines_z8536 state.now answer.old }
{
    hosted::lines::<Z8536>(state, answer)
}

// The image of the fresh CTC, likewise.
pub fn wolfscarer_ctc_fresh(state: &mut [u8]) -> u8
    ensures { (result ≡ fresh_code (image_ctc fresh_ctc) state.old) × (state.new ≡ fresh_state (image_ctc fresh_ctc) state.old) }
{
    hosted::fresh::<Ctc>(state)
}

// An event of a CTC.
// Stays: C hands over the kind and three numbers, and this call has its name and its arguments (hosts/wolfscarer.h).
#[tactic(auto, unfolding(crate::specs::Calls::hosted, crate::specs::Calls::host_ctc))]
pub fn wolfscarer_ctc_event(
    state: &mut [u8],
    kind: u32,
    a: u32,
    b: u32,
    c: u32,
    answer: &mut [u8],
) -> u8
    ensures { called result state.new answer.new ≡ host_event_ctc state.old (of kind a b c) answer.old }
{
    hosted::event::<Ctc>(state, Event { kind, a, b, c }, answer)
}

// The end of service of a CTC. Codes as an event's, else 0.
pub fn wolfscarer_ctc_end_of_service(state: &mut [u8], answer: &mut [u8]) -> u8
    ensures { called result state.new answer.new ≡ host_end_ctc state.old answer.old }
{
    match hosted::opened::<Ctc>(state, answer.len(), answers::CTC) {
        Ok(d) => hosted::settle(ctc_event::end_of_service(d), state, answer),
        Err(code) => code,
    }
}

// The lines of a CTC, worked out.
#[tactic(auto, unfolding(crate::specs::Calls::hosted_lines, crate::specs::Calls::host_lines_ctc))]
pub fn wolfscarer_ctc_lines(state: &[u8], answer: &mut [u8]) -> u8
    ensures { called result state.now answer.new ≡ host_lines_ctc state.now answer.old }
{
    hosted::lines::<Ctc>(state, answer)
}
