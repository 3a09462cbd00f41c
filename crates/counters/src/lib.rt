// One counter/timer: its count, its output, its turn in a step, and a write of its command.
#![tactic(auto)]

ghost use Rattle.std.specs.Prelude.{◌≡◌};
ghost use Rattle.rules.specs.Counters.{continuous, count_input, trigger_input, gate_input, retrigger, square};
ghost use Rattle.rules.specs.Counters.{takes, loaded, less_one, terminal_of, count_of, output_of, reach_of, clocks, clocked_by, pulse_of, turn_of, frozen_by, triggered_by, commanded_by};
ghost use Rattle.counters.specs.Rests.{rests_by};

use rules::{Counted, Counter, Link, Reach};

// What comes to a counter in a step: what its link brings, a timer clock or none, and its four lines, as D0 to D3, before the step and after (a).
#[derive(Clone, Copy)]
pub struct Inputs {
    pub link: Link,
    pub timer: bool,
    pub were: u8,
    pub are: u8,
}

fn continuous(c: Counter) -> bool
    ensures { result ≡ continuous c }
{
    c.mode / 128 % 2 == 1
}

fn count_input(c: Counter) -> bool
    ensures { result ≡ count_input c }
{
    c.mode / 32 % 2 == 1
}

fn trigger_input(c: Counter) -> bool
    ensures { result ≡ trigger_input c }
{
    c.mode / 16 % 2 == 1
}

fn gate_input(c: Counter) -> bool
    ensures { result ≡ gate_input c }
{
    c.mode / 8 % 2 == 1
}

fn retrigger(c: Counter) -> bool
    ensures { result ≡ retrigger c }
{
    c.mode / 4 % 2 == 1
}

fn square(c: Counter) -> bool
    ensures { result ≡ square c }
{
    c.mode % 4 == 2
}

// Whether a trigger is taken.
#[tactic(auto, unfolding(rules::specs::Counters::takes))]
fn takes_trigger(enabled: bool, c: Counter) -> bool
    ensures { result ≡ takes enabled c }
{
    enabled & (!c.cip | retrigger(c))
}

#[tactic(auto, unfolding(rules::specs::Counters::loaded))]
fn load(c: Counter) -> Counter
    ensures { result ≡ loaded c }
{
    Counter {
        count: c.constant,
        cip: true,
        half: false,
        pulse: false,
        ..c
    }
}

fn less_one(n: u16) -> u16
    ensures { result ≡ less_one 65536 n }
{
    n.wrapping_sub(1)
}

// What reaching 0 does.
#[tactic(auto, unfolding(rules::specs::Counters::terminal_of))]
fn at_terminal(c: Counter) -> Counter
    ensures { result ≡ terminal_of c }
{
    if square(c) & !c.half {
        return Counter {
            count: c.constant,
            half: true,
            ..c
        };
    }
    if continuous(c) {
        return Counter {
            count: c.constant,
            half: false,
            ..c
        };
    }
    Counter {
        count: 0,
        cip: false,
        half: false,
        ..c
    }
}

// One count: the pulse rises with a terminal, in version 2, and falls with any other.
#[tactic(auto, unfolding(rules::specs::Counters::count_of))]
fn count(version: u8, c: Counter) -> Counted
    ensures { result ≡ count_of version c }
{
    let n = less_one(c.count);
    if n == 0 {
        return Counted {
            counter: Counter {
                pulse: version == 2,
                ..at_terminal(c)
            },
            terminal: true,
        };
    }
    Counted {
        counter: Counter {
            count: n,
            pulse: false,
            ..c
        },
        terminal: false,
    }
}

#[tactic(auto, unfolding(rules::specs::Counters::pulse_of))]
fn pulse(version: u8, c: Counter) -> bool
    ensures { result ≡ pulse_of version c }
{
    if version == 1 {
        return c.cip & (c.count == 1);
    }
    c.pulse
}

#[tactic(auto, unfolding(rules::specs::Counters::output_of))]
pub fn output(version: u8, c: Counter) -> bool
    ensures { result ≡ output_of version c }
{
    match c.mode % 4 {
        0 => pulse(version, c),
        1 => c.cip,
        _ => c.cip & c.half,
    }
}

// The count that reaches a counter in a step.
#[tactic(auto, unfolding(rules::specs::Counters::reach_of))]
fn count_source(c: Counter, x: Inputs) -> bool
    ensures { result ≡ (reach_of c x.link x.timer x.were x.are).count }
{
    if x.link.only {
        return x.link.count;
    }
    if count_input(c) {
        return !(x.were / 2 % 2 == 1) & (x.are / 2 % 2 == 1);
    }
    x.timer
}

#[tactic(auto, unfolding(rules::specs::Counters::reach_of))]
fn reach(c: Counter, x: Inputs) -> Reach
    ensures { result ≡ reach_of c x.link x.timer x.were x.are }
{
    let trigger_rises = !(x.were / 4 % 2 == 1) & (x.are / 4 % 2 == 1);
    let gate_line = x.are / 8 % 2 == 1;
    Reach {
        trigger: (trigger_input(c) & trigger_rises) | x.link.trigger,
        gate: (!gate_input(c) | gate_line) & x.link.gate,
        count: count_source(c, x),
    }
}

// A count clock at a counter that it reaches.
#[tactic(auto, unfolding(rules::specs::Counters::clocked_by))]
fn clock(version: u8, c: Counter) -> Counted
    ensures { result ≡ clocked_by version c }
{
    if c.cip {
        return count(version, c);
    }
    Counted {
        counter: Counter { pulse: false, ..c },
        terminal: false,
    }
}

#[tactic(auto, unfolding(rules::specs::Counters::turn_of, rules::specs::Counters::clocks))]
fn turn_by(version: u8, enabled: bool, h: Reach, c: Counter) -> Counted
    ensures { result ≡ turn_of version enabled h c }
{
    if h.trigger & takes_trigger(enabled, c) {
        return Counted {
            counter: load(c),
            terminal: false,
        };
    }
    if enabled & c.gcb & h.gate & h.count {
        return clock(version, c);
    }
    Counted {
        counter: c,
        terminal: false,
    }
}

// A counter's turn in a step.
pub fn turn(version: u8, enabled: bool, c: Counter, x: Inputs) -> Counted
    ensures { result ≡ turn_of version enabled (reach_of c x.link x.timer x.were x.are) c }
{
    turn_by(version, enabled, reach(c, x), c)
}

// Whether a counter's turn leaves it as it is: no trigger that it takes, and no count.
#[tactic(auto, unfolding(crate::specs::Rests::rests_by, rules::specs::Counters::clocks))]
pub fn rests(enabled: bool, c: Counter, x: Inputs) -> bool
    ensures { result ≡ rests_by enabled (reach_of c x.link x.timer x.were x.are) c }
{
    let h = reach(c, x);
    !(h.trigger & takes_trigger(enabled, c)) & !(enabled & c.gcb & h.gate & h.count)
}

#[tactic(auto, unfolding(rules::specs::Counters::frozen_by))]
fn freeze(v: bool, c: Counter) -> Counter
    ensures { result ≡ frozen_by v c }
{
    if v & !c.rcc {
        return Counter {
            rcc: true,
            frozen: c.count,
            ..c
        };
    }
    c
}

#[tactic(auto, unfolding(rules::specs::Counters::triggered_by))]
fn trigger(v: bool, enabled: bool, c: Counter) -> Counter
    ensures { result ≡ triggered_by v enabled c }
{
    if v & takes_trigger(enabled, c) {
        return load(c);
    }
    c
}

// GCB, RCC and trigger of a written command.
#[tactic(auto, unfolding(rules::specs::Counters::commanded_by))]
pub fn command(enabled: bool, b: u8, c: Counter) -> Counter
    ensures { result ≡ commanded_by enabled b c }
{
    let rcc = b / 8 % 2 == 1;
    let gcb = b / 4 % 2 == 1;
    let triggered = b / 2 % 2 == 1;
    trigger(triggered, enabled, freeze(rcc, Counter { gcb, ..c }))
}
