// One step of a device, (a) to (f).
#![tactic(auto)]

mod pattern;
mod seen;
mod still;

ghost use Rattle.std.specs.Prelude.{◌≡◌, [], ◌∷◌};
ghost use Rattle.rules.specs.Record.{counter_at};
ghost use Rattle.rules.specs.Counters.{output_of, link_of, reach_of, turn_of};
ghost use Rattle.rules.specs.PortData.{caught_of};
ghost use Rattle.rules.specs.Patterns.{match_of};
ghost use Rattle.rules.specs.Interrupts.{came, was_lost};
ghost use Rattle.rules.specs.Step.{lines_at, catchers, caught_at, step_of};
ghost use Rattle.step.specs.Parts.{lines_seen, inputs_in, turn_by, turn_at, pattern_by, pattern_after};

use basics::Place;
use counters::Inputs;
use levels::Looks;
use rules::{Counter, Device, Fate, Link, Pattern, Port, Source, Stepped};
use seen::Seen;
pub use still::{has_caught, untimed};
use theorems::Side;

// What a counter's turn leaves: the counter, its source, and whether a terminal came and was lost.
#[derive(Clone, Copy)]
struct Turn {
    counter: Counter,
    source: Source,
    came: bool,
    lost: bool,
}

// Whether an event came, and whether it was lost.
#[tactic(auto, unfolding(rules::specs::Interrupts::came))]
fn came(f: Fate) -> bool
    ensures { result ≡ came f }
{
    f != Fate::Nothing
}

#[tactic(auto, unfolding(rules::specs::Interrupts::was_lost))]
fn was_lost(f: Fate) -> bool
    ensures { result ≡ was_lost f }
{
    f == Fate::Lost
}

// The four lines of counter i, as D0 to D3.
#[tactic(auto, unfolding(rules::specs::Step::lines_at))]
pub fn lines_at(d: Device, i: usize) -> u8
    ensures { result ≡ lines_at d i }
{
    match i {
        0 => levels::path_at(d, 1) / 16,
        1 => levels::path_at(d, 1) % 16,
        _ => levels::path_at(d, 2) % 16,
    }
}

// The same lines where the path values are known.
fn lines(l: Looks, i: Place<3>) -> u8
    ensures { result ≡ lines_seen l i }
{
    match i.index() {
        0 => l.b / 16,
        1 => l.b % 16,
        _ => l.c % 16,
    }
}

// What comes to counter i with this link: w saw its lines before the step, n sees them after (a).
fn inputs(link: Link, timer: bool, w: Looks, n: Looks, i: Place<3>) -> Inputs
    ensures { result ≡ inputs_in link timer w n i }
{
    Inputs {
        link,
        timer,
        were: lines(w, i),
        are: lines(n, i),
    }
}

// The turn of a counter and its source.
#[tactic(auto, unfolding(crate::specs::Parts::turn_by))]
fn turn_of(version: u8, enabled: bool, c: Counter, s: Source, x: Inputs) -> Turn
    ensures { result ≡ turn_by (turn_of version enabled (reach_of c x.link x.timer x.were x.are) c) s }
{
    let r = counters::turn(version, enabled, c, x);
    let f = sources::fate(true, r.terminal, s);
    Turn {
        counter: r.counter,
        source: sources::left(f, s),
        came: came(f),
        lost: was_lost(f),
    }
}

// That of counter i of the device d.
#[tactic(auto, unfolding(crate::specs::Parts::turn_at))]
fn counter_turn(x: Inputs, i: Place<3>, d: Device) -> Turn
    ensures { result ≡ turn_at x.link x.timer x.were x.are i d }
{
    let i = i.index();
    let enabled = levels::counter_on(d.config, i);
    let s = d.sources[Source::of_counter(i)];
    turn_of(d.version, enabled, d.counters[i], s, x)
}

// What LC makes of CT1's output before the step and after (b).
#[tactic(auto, unfolding(rules::specs::Counters::link_of))]
pub fn link(lc: u8, before: bool, after: bool) -> Link
    ensures { result ≡ link_of lc before after }
{
    let rises = !before & after;
    Link {
        trigger: (lc == 2) & rises,
        gate: !(lc == 1) | after,
        only: lc == 3,
        count: rises,
    }
}

// What reaches the counters 1 and 3: nothing of a link.
pub const UNLINKED: Link = Link {
    trigger: false,
    gate: true,
    only: false,
    count: false,
};

const CT1: Place<3> = Place { at: 0 };

const CT2: Place<3> = Place { at: 1 };

const CT3: Place<3> = Place { at: 2 };

fn ct1_output(d: Device) -> bool
    ensures { result ≡ output_of d.version (counter_at d 0) }
{
    counters::output(d.version, d.counters[0])
}

// Stays: a port, its enable and its path value, as the definition takes them (rules/PortData.caught_of); callers have each from elsewhere.
#[tactic(auto, unfolding(rules::specs::PortData::caught_of))]
fn caught(enabled: bool, q: Port, path: u8) -> u8
    ensures { result ≡ caught_of enabled q path }
{
    ports::places(enabled, q) & (q.catcher | path)
}

fn caught_at(d: Device, p: Place<3>) -> Port
    ensures { result ≡ caught_at d p }
{
    let p = p.index();
    let r = levels::effective_at(d, p);
    Port {
        catcher: caught(levels::port_on(d.config, p), r, r.outside ^ r.polarity),
        ..d.ports[p]
    }
}

// The ports with their catchers.
fn caught_ports(d: Device) -> [Port; 3]
    ensures { result ≡ caught_at d 0 ∷ caught_at d 1 ∷ caught_at d 2 ∷ [] }
{
    let a = Place { at: 0 };
    let b = Place { at: 1 };
    let c = Place { at: 2 };
    [caught_at(d, a), caught_at(d, b), caught_at(d, c)]
}

// The catchers of all ports.
#[tactic(auto, unfolding(rules::specs::Step::catchers))]
pub fn catch_all(d: Device) -> Device
    ensures { result ≡ catchers d }
{
    Device {
        ports: caught_ports(d),
        ..d
    }
}

// Whether the pattern p of a port matches, by what it saw before and after.
// Stays: what a pattern saw before and after, as the definitions take them; a struct of two bytes would be made here and there and taken apart again.
#[tactic(auto, unfolding(rules::specs::Patterns::match_of))]
pub fn matches(enabled: bool, p: Pattern, before: u8, after: u8) -> bool
    ensures { result ≡ match_of enabled p before after }
{
    let is_and = p.mode / 2 % 4 == 1;
    let is_or = 2 <= p.mode / 2 % 4;
    enabled
        & ((is_and & pattern::and_match(p, before, after))
            | (is_or & pattern::or_match(p, before, after)))
}

// A port's side after what its pattern q saw before and after.
#[tactic(auto, unfolding(crate::specs::Parts::pattern_by))]
pub fn side(enabled: bool, q: Pattern, before: u8, after: u8, x: Side) -> Side
    ensures { result ≡ pattern_by enabled q before after x }
{
    let pmf = matches(enabled, q, before, after);
    Side {
        pmf,
        source: sources::matched(q, x.pmf, pmf, x.source),
    }
}

// That of port p of the device d.
#[tactic(auto, unfolding(crate::specs::Parts::pattern_after, theorems::specs::Moving::side_at))]
fn pattern_turn(p: Place<2>, before: u8, after: u8, d: Device) -> Side
    ensures { result ≡ pattern_after p before after d }
{
    let p = p.index();
    let q = d.patterns[p];
    let x = Side {
        pmf: q.pmf,
        source: d.sources[Source::of_port(p)],
    };
    side(levels::port_on(d.config, p), q, before, after, x)
}

// One step, from the record before it and the one after (a).
fn step_by(timer: bool, s0: Seen, s1: Seen) -> Stepped
    ensures { result ≡ step_of timer s0.device s1.device }
{
    let d = s1.device;
    let w = s0.looks;
    let n = s1.looks;
    let one = counter_turn(inputs(UNLINKED, timer, w, n, CT1), CT1, d);
    let output = counters::output(d.version, one.counter);
    let k = link(d.config % 4, ct1_output(s0.device), output);
    let two = counter_turn(inputs(k, timer, w, n, CT2), CT2, d);
    let three = counter_turn(inputs(UNLINKED, timer, w, n, CT3), CT3, d);
    let mut e = d;
    e.counters = [one.counter, two.counter, three.counter];
    e.ports = caught_ports(e);
    let s = levels::look(e);
    let a = pattern_turn(Place { at: 0 }, w.seen_a, s.seen_a, d);
    let b = pattern_turn(Place { at: 1 }, w.seen_b, s.seen_b, d);
    e.patterns[0].pmf = a.pmf;
    e.patterns[1].pmf = b.pmf;
    e.sources = [three.source, a.source, two.source, b.source, one.source];
    Stepped {
        device: e,
        terminals: [one.came, two.came, three.came],
        lost: [one.lost, two.lost, three.lost],
    }
}

// One step.
pub fn step(timer: bool, d0: Device, d1: Device) -> Stepped
    ensures { result ≡ step_of timer d0 d1 }
{
    step_by(timer, Seen::of(d0), Seen::of(d1))
}
