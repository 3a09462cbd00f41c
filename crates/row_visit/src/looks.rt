// The first pass, which alters nothing.
ghost use Rattle.std.specs.Prelude.{◌≡◌};
ghost use Rattle.rows.specs.Rows.{dark_answer};
ghost use Rattle.row_visit.specs.Visits.{here_of, to_of, pass_begun, onward as onward_of, next_place, follows_of, code_seen, looked_of, looking_of};

use crate::Pass;
use rows::{RowAnswer, RowEvent, Shown};
use rules::{Device, Event};

// How many devices come before the one that is named; an event that names none begins at the first.
#[tactic(auto, unfolding(crate::specs::Visits::to_of))]
fn to_of(e: RowEvent) -> u32
    ensures { result ≡ to_of e }
{
    if rows::names(e.event) {
        return e.device;
    }
    0
}

// An answer of which only the code is known.
// Stays: the code is a number, as that of a row's answer is (rows::RowAnswer).
#[tactic(auto, unfolding(rows::specs::Rows::eight_of))]
fn dark_answer(code: u8) -> RowAnswer
    ensures { result ≡ dark_answer code }
{
    RowAnswer {
        code,
        value: 0,
        devices: [Shown::default(); 8],
    }
}

// A pass before the first device.
// Stays: the code is a number, as that of a row's answer is (rows::RowAnswer).
#[tactic(auto, unfolding(crate::specs::Visits::pass_begun))]
pub(crate) fn begin(event: RowEvent, acts: bool, shows: bool, code: u8) -> Pass
    ensures { result ≡ pass_begun event acts shows code }
{
    Pass {
        event,
        acts,
        shows,
        to: to_of(event),
        found: false,
        place: 0,
        high: true,
        sound: true,
        answer: dark_answer(code),
    }
}

// The pass that looks, before the first device.
#[tactic(auto, unfolding(crate::specs::Visits::looking_of))]
pub fn looking(e: RowEvent) -> Pass
    ensures { result ≡ looking_of e }
{
    begin(e, false, false, 0)
}

// Whether the event reaches this device: K the first that requests, any other kind the one at its place.
#[tactic(auto, unfolding(crate::specs::Visits::here_of))]
pub(crate) fn here(d: Device, s: Pass) -> bool
    ensures { result ≡ here_of d s }
{
    if s.event.event.kind == Event::K {
        return !s.found & d.lines.int;
    }
    !s.found & (s.to == 0)
}

// The next place, and past eight 9.
#[tactic(auto, unfolding(crate::specs::Visits::next_place))]
fn next_place(p: usize) -> usize
    ensures { result ≡ next_place p }
{
    if p < 9 { p + 1 } else { p }
}

// The pass at the next device.
#[tactic(auto, unfolding(crate::specs::Visits::onward), using(crate::proofs::Parts::less_one))]
pub(crate) fn onward(s: Pass, hit: bool, high: bool, sound: bool, answer: RowAnswer) -> Pass
    ensures { result ≡ onward_of s hit high sound answer }
{
    Pass {
        to: s.to.saturating_sub(1),
        found: s.found | hit,
        place: next_place(s.place),
        high,
        sound,
        answer,
        ..s
    }
}

// Whether a device is sound, and its IEI is the IEO of the one before; that of the first is free.
#[tactic(auto, unfolding(crate::specs::Visits::follows_of))]
fn follows(d: Device, s: Pass) -> bool
    ensures { result ≡ follows_of d s }
{
    refusals::sound(d) & ((s.place == 0) | (d.iei == s.high))
}

// The code of the device that the event reaches.
// Stays: the code is a number, as that of a row's answer is (rows::RowAnswer).
#[tactic(auto, unfolding(crate::specs::Visits::code_seen))]
fn code_seen(hit: bool, d: Device, s: Pass) -> u8
    ensures { result ≡ code_seen hit d s }
{
    if hit {
        return rules::code(refusals::admit(d, s.event.event));
    }
    s.answer.code
}

// The look at one device.
#[tactic(auto, unfolding(crate::specs::Visits::looked_of))]
pub fn looked(d: Device, s: Pass) -> Pass
    ensures { result ≡ looked_of d s }
{
    let hit = here(d, s);
    onward(
        s,
        hit,
        d.lines.ieo,
        s.sound & follows(d, s),
        dark_answer(code_seen(hit, d, s)),
    )
}
