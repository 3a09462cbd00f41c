// A step that is no timer clock. In most of them nothing moves but by the direct effect, and then the record is as (a) left it.
ghost use Rattle.std.specs.Prelude.{◌≡◌, false};
ghost use Rattle.rules.specs.Record.{counter_at};
ghost use Rattle.rules.specs.Registers.{counter_enabled};
ghost use Rattle.rules.specs.Counters.{reach_of};
ghost use Rattle.rules.specs.Step.{step_of};
ghost use Rattle.counters.specs.Rests.{rests_by};
ghost use Rattle.step.specs.Still.{same_catchers, has_caught, stands_by, counters_rest, still};

use crate::seen::Seen;
use crate::{CT1, CT2, CT3, UNLINKED, catch_all, ct1_output, inputs, link, matches, step_by};
use basics::Place;
use counters::Inputs;
use rules::{Device, Pattern};

// Whether two records have the same catchers.
fn same_catchers(e: Device, d: Device) -> bool
    ensures { result ≡ same_catchers e d }
{
    e.ports.map(|q| q.catcher) == d.ports.map(|q| q.catcher)
}

// Whether the catchers have caught what there is to catch.
#[tactic(auto, unfolding(crate::specs::Still::has_caught))]
pub fn has_caught(d: Device) -> bool
    ensures { result ≡ has_caught d }
{
    same_catchers(catch_all(d), d)
}

// Whether a match is that of the last step, and no event comes of it.
#[tactic(auto, unfolding(crate::specs::Still::stands_by, rules::specs::Patterns::event_by))]
fn stands(q: Pattern, matches: bool) -> bool
    ensures { result ≡ stands_by q matches }
{
    let priority = q.mode / 2 % 4 == 3;
    (matches == q.pmf) & !(matches & (priority | !q.pmf))
}

// Whether the turn of counter i leaves it as it is.
fn rests(x: Inputs, i: Place<3>, d: Device) -> bool
    ensures { result ≡ rests_by (counter_enabled d i) (reach_of (counter_at d i) x.link x.timer x.were x.are) (counter_at d i) }
{
    let i = i.index();
    counters::rests(levels::counter_on(d.config, i), d.counters[i], x)
}

// Whether no counter's turn does anything.
#[tactic(auto, unfolding(crate::specs::Still::counters_rest, crate::specs::Still::rests_at, rules::specs::Step::lines_at))]
fn counters_rest(s0: Seen, s1: Seen) -> bool
    ensures { result ≡ counters_rest s0.device s1.device }
{
    let d = s1.device;
    let w = s0.looks;
    let n = s1.looks;
    let k = link(d.config % 4, ct1_output(s0.device), ct1_output(d));
    // Where no line has moved and CT1's output has not risen, nothing comes to any of them.
    if (w.b == n.b) & (w.c == n.c) & !k.count {
        return true;
    }
    rests(inputs(UNLINKED, false, w, n, CT1), CT1, d)
        & rests(inputs(k, false, w, n, CT2), CT2, d)
        & rests(inputs(UNLINKED, false, w, n, CT3), CT3, d)
}

// Whether nothing moves after (a).
#[tactic(auto, unfolding(crate::specs::Still::still, crate::specs::Still::stands_at))]
fn is_still(s0: Seen, s1: Seen) -> bool
    ensures { result ≡ still s0.device s1.device }
{
    let d = s1.device;
    let w = s0.looks;
    let n = s1.looks;
    let a = d.patterns[0];
    let b = d.patterns[1];
    let rest = counters_rest(s0, s1);
    let has = has_caught(d);
    let in_a = matches(levels::port_enabled(d, 0), a, w.seen_a, n.seen_a);
    let in_b = matches(levels::port_enabled(d, 1), b, w.seen_b, n.seen_b);
    rest & has & (stands(a, in_a) & stands(b, in_b))
}

// The record after a step that is no timer clock, from the one before it and the one after (a).
pub fn untimed(d0: Device, d1: Device) -> Device
    ensures { result ≡ (step_of false d0 d1).device }
{
    let s0 = Seen::of(d0);
    let s1 = Seen::of(d1);
    if is_still(s0, s1) {
        return d1;
    }
    step_by(false, s0, s1).device
}
