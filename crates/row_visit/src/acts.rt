// The second pass, which acts on each device, or leaves it, and shows it in the answer, or not.
ghost use Rattle.std.specs.Prelude.{◌≡◌};
ghost use Rattle.rows.specs.Rows.{iei_from, reached_by, part_of, shown_of};
ghost use Rattle.rules.specs.Events.{effect as effect_of};
ghost use Rattle.row_visit.specs.Visits.{refused_of, verdict_of, acting_of, does_of, parted_of, shows_at, filled_of, acted_of};

use crate::looks::{begin, here, onward};
use crate::{Pass, Seen};
use rows::{RowAnswer, Shown};
use rules::{Device, Effect, Event, Refusal, Report};

// Whether the row has no device, or more than eight, or none of the number that is named.
#[tactic(auto, unfolding(crate::specs::Visits::refused_of))]
fn misfit(s: Pass) -> bool
    ensures { result ≡ refused_of s }
{
    (s.place == 0) | (8 < s.place) | (rows::names(s.event.event) & !s.found)
}

// The code of an event, after the pass that looked.
// Stays: a number, as the code is that the pass has in its answer.
#[tactic(auto, unfolding(crate::specs::Visits::verdict_of, rules::specs::Refusals::refusal_number))]
fn verdict(s: Pass) -> u8
    ensures { result ≡ verdict_of s }
{
    if !s.sound {
        return Refusal::Unsound.number();
    }
    if misfit(s) {
        return Refusal::NoDevice.number();
    }
    if (s.event.event.kind == Event::K) & !s.found {
        return Refusal::NoRequester.number();
    }
    s.answer.code
}

// The pass that acts, before the first device.
#[tactic(auto, unfolding(crate::specs::Visits::acting_of, rules::specs::Refusals::refusal_number))]
pub fn acting(s: Pass) -> Pass
    ensures { result ≡ acting_of s }
{
    let code = verdict(s);
    begin(
        s.event,
        code == 0,
        !((code == Refusal::Unsound.number()) | (8 < s.place)),
        code,
    )
}

fn effect(device: Device, value: u8) -> Effect
    ensures { result ≡ effect_of device value }
{
    Effect {
        device,
        value,
        report: Report::default(),
    }
}

// What an event that reaches a device does to it, and nothing where it does not.
#[tactic(auto, unfolding(rows::specs::Rows::reached_by))]
fn touched(does: bool, e: Event, d: Device) -> Effect
    ensures { result ≡ reached_by does e d }
{
    if does {
        let o = event::event(d, e);
        return Effect {
            device: o.device,
            value: o.answer.value,
            report: o.answer.report,
        };
    }
    effect(d, 0)
}

// With IEI from the one before.
#[tactic(auto, unfolding(rows::specs::Rows::iei_from))]
fn joined(high: bool, d: Device) -> Device
    ensures { result ≡ iei_from high d }
{
    interrupts::relined(Device { iei: high, ..d })
}

// What an event does to a device at its place.
fn part(does: bool, e: Event, place: usize, high: bool, d: Device) -> Effect
    ensures { result ≡ part_of does e place high d }
{
    let r = touched(does, e, d);
    if place == 0 {
        return r;
    }
    Effect {
        device: joined(high, r.device),
        ..r
    }
}

// T goes to all, every other kind to the one that it reaches.
#[tactic(auto, unfolding(crate::specs::Visits::does_of))]
fn does(s: Pass, hit: bool) -> bool
    ensures { result ≡ does_of s hit }
{
    (s.event.event.kind == Event::T) | hit
}

// What the pass does to a device.
#[tactic(auto, unfolding(crate::specs::Visits::parted_of))]
fn parted(hit: bool, d: Device, s: Pass) -> Effect
    ensures { result ≡ parted_of hit d s }
{
    if s.acts {
        return part(does(s, hit), s.event.event, s.place, s.high, d);
    }
    effect(d, 0)
}

// What an answer says of a device.
#[tactic(auto, unfolding(rows::specs::Rows::shown_of))]
fn shown(r: Effect) -> Shown
    ensures { result ≡ shown_of r }
{
    Shown {
        a: levels::pins_at(r.device, 0),
        b: levels::pins_at(r.device, 1),
        c: levels::pins_at(r.device, 2),
        int: r.device.lines.int,
        ieo: r.device.lines.ieo,
        report: r.report,
    }
}

// The answer's places, with that of this device.
#[tactic(auto, unfolding(crate::specs::Visits::shows_at))]
fn shows_at(s: Pass, r: Effect) -> [Shown; 8]
    ensures { result ≡ shows_at s r }
{
    let mut l = s.answer.devices;
    if s.shows && s.place < 8 {
        l[s.place] = shown(r);
    }
    l
}

// The answer, with this device; the value is that of the one reached.
#[tactic(auto, unfolding(crate::specs::Visits::filled_of))]
fn filled(hit: bool, s: Pass, r: Effect) -> RowAnswer
    ensures { result ≡ filled_of hit s r }
{
    RowAnswer {
        value: if hit { r.value } else { s.answer.value },
        devices: shows_at(s, r),
        ..s.answer
    }
}

// The pass at one device.
#[tactic(auto, unfolding(crate::specs::Visits::acted_of))]
pub fn acted(d: Device, s: Pass) -> Seen
    ensures { result ≡ acted_of d s }
{
    let hit = here(d, s);
    let r = parted(hit, d, s);
    Seen {
        device: r.device,
        pass: onward(s, hit, r.device.lines.ieo, s.sound, filled(hit, s, r)),
    }
}
