// T n: each part that goes alone by division; CT1, CT2 and Port B's side, where a link or a pattern ties them, by leaps and rounds.
#![tactic(auto)]

mod reports;

ghost use Rattle.std.specs.Prelude.{◌≡◌, true, false, not, ◌||◌, eqb, ◌+◌, ◌/◌, ◌%◌, ◌<◌};
ghost use Rattle.basics.specs.Byte.{bit, num};
ghost use Rattle.rules.specs.Record.{pattern_at};
ghost use Rattle.rules.specs.Registers.{reset, port_enabled};
ghost use Rattle.rules.specs.PortData.{seen_at};
ghost use Rattle.rules.specs.Patterns.{match_of};
ghost use Rattle.rules.specs.Report.{no_report};
ghost use Rattle.rules.specs.Step.{lines_at, clock_of, ran_of};
ghost use Rattle.theorems.specs.Moving.{Caught, comes_to, part_after, side_at, side_after, apart, run_with};
ghost use Rattle.clocks.specs.Room.{Room};

use basics::Place;
use rules::{Counter, Device, Ran, Report, Source};
use theorems::{Part, Side};

// The timer clocks of n clocks, and the phase after them.
fn timer_clocks(n: u32, phase: bool) -> u32
    ensures { result ≡ (n + num phase) / 2 }
{
    if phase {
        return n / 2 + n % 2;
    }
    n / 2
}

fn phase_after(n: u32, phase: bool) -> bool
    ensures { result ≡ eqb ((n + num phase) % 2) 1 }
{
    (n % 2 == 1) != phase
}

// Whether the gate of counter i is open: by its line, where the mode enables that.
fn gate_open(d: Device, i: usize, gate_input: bool) -> bool
    ensures { result ≡ (not gate_input || bit (lines_at d i) 3) }
{
    !gate_input || step::lines_at(d, i) / 8 % 2 == 1
}

// Whether timer clocks come to counter i, where no link reaches it.
fn comes(d: Device, i: Place<3>) -> bool
    ensures { result ≡ comes_to d i }
{
    let i = i.index();
    let c = d.counters[i];
    let count_input = c.mode / 32 % 2 == 1;
    let gate_input = c.mode / 8 % 2 == 1;
    levels::counter_on(d.config, i) & c.gcb & gate_open(d, i, gate_input) & !count_input
}

// Does nothing when it runs: its clause hands the proof of `parts` that the count and the constant have sixteen bits, as the formula of a counter asks.
fn sixteen_bits(c: Counter)
    ensures { (c.count < 65536) × (c.constant < 65536) }
{}

// Counter i with its source after k timer clocks.
#[tactic(auto, unfolding(theorems::specs::Moving::part_after))]
fn part(d: Device, i: Place<3>, k: u32) -> Part
    ensures { result ≡ part_after d i k }
{
    let c = d.counters[i.index()];
    let s = d.sources[Source::of_counter(i.index())];
    alone::alone(d.version, comes(d, i), c, s, k)
}

// Whether the pattern of port p matches what stands there.
#[tactic(auto, unfolding(rules::specs::Patterns::match_of))]
fn matches_at(d: Device, p: Place<2>) -> bool
    ensures { result ≡ match_of (port_enabled d p) (pattern_at d p) (seen_at d p) (seen_at d p) }
{
    let p = p.index();
    let q = d.patterns[p];
    if q.mode / 2 % 4 == 0 {
        return false;
    }
    let seen = levels::seen_at(d, p);
    step::matches(levels::port_enabled(d, p), q, seen, seen)
}

// Port p's side after k timer clocks in which nothing that it sees changes.
#[tactic(auto, unfolding(theorems::specs::Moving::side_after, theorems::specs::Moving::side_at, theorems::specs::Moving::side_by))]
fn side(d: Device, p: Place<2>, k: u32) -> Side
    ensures { result ≡ side_after d p k }
{
    let q = d.patterns[p.index()];
    let source = d.sources[Source::of_port(p.index())];
    if k == 0 {
        return Side { pmf: q.pmf, source };
    }
    let pmf = matches_at(d, p);
    Side {
        pmf,
        source: alone::matched(q, q.pmf, pmf, source),
    }
}

// Whether no counter is linked, and no output is where Port B's pattern could see it.
#[tactic(auto, unfolding(theorems::specs::Moving::apart))]
fn all_apart(d: Device) -> bool
    ensures { result ≡ apart d }
{
    let pattern = d.patterns[1].mode / 2 % 4 != 0;
    let one = d.counters[0].mode / 64 % 2 == 1;
    let two = d.counters[1].mode / 64 % 2 == 1;
    (d.config % 4 == 0) & (!pattern | !(one | two))
}

// The record with the parts and sides that n clocks leave, and their report.
#[tactic(auto, unfolding(theorems::specs::Moving::run_with, theorems::specs::Moving::with_moving, theorems::specs::Moving::phase_after))]
fn with(d: Device, n: u32, one: Part, two: Part, three: Part, a: Side, b: Side) -> Ran
    ensures { result ≡ run_with d n (record { one = one; two = two; three = three; a = a; b = b }) }
{
    let mut e = d;
    e.patterns[0].pmf = a.pmf;
    e.patterns[1].pmf = b.pmf;
    e.counters = [one.counter, two.counter, three.counter];
    e.sources = [three.source, a.source, two.source, b.source, one.source];
    e.phase = phase_after(n, d.phase);
    Ran {
        device: e,
        report: Report {
            terminals: [one.terminals, two.terminals, three.terminals],
            lost: [one.lost, two.lost, three.lost],
        },
    }
}

// n clocks of a record whose catchers have caught.
#[tactic(auto, unfolding(theorems::specs::Moving::by_division, theorems::specs::Moving::alones_after, theorems::specs::Moving::besides))]
fn parts(n: u32, d: Device) -> Ran
    requires { Caught d × (reset d ≡ false) }
    ensures { result ≡ ran_of n d }
{
    sixteen_bits(d.counters[0]);
    sixteen_bits(d.counters[1]);
    sixteen_bits(d.counters[2]);
    let k = timer_clocks(n, d.phase);
    let one = part(d, Place { at: 0 }, k);
    let three = part(d, Place { at: 2 }, k);
    let a = side(d, Place { at: 0 }, k);
    if all_apart(d) {
        let two = part(d, Place { at: 1 }, k);
        let b = side(d, Place { at: 1 }, k);
        return with(d, n, one, two, three, a, b);
    }
    let pair = linked::linked(k, d);
    let two = alone::placed(pair.two, d.sources[Source::CT2], pair.terminals);
    with(d, n, one, two, three, a, pair.side)
}

// One PCLK clock, with the report so far.
#[tactic(auto, unfolding(rules::specs::Step::clock_of))]
fn clock(s: Ran) -> Ran
    requires { Room 1 s.report }
    ensures { result ≡ clock_of s }
{
    let d = s.device;
    if d.reset() {
        return s;
    }
    let e = Device {
        phase: !d.phase,
        ..d
    };
    if d.phase {
        return reports::reported(s.report, step::step(true, d, e));
    }
    Ran { device: e, ..s }
}

// n clocks of a record whose catchers have not caught, which no sound record is: of the first two one is a timer clock, and catches.
fn catching(n: u32, start: Ran) -> Ran
    requires { (reset start.device ≡ false) × (start.report ≡ no_report) }
    ensures { result ≡ ran_of n start.device }
{
    if n == 0 {
        return start;
    }
    let first = clock(start);
    if n == 1 {
        return first;
    }
    let second = clock(first);
    reports::on_top(second.report, parts(n - 2, second.device))
}

// Before the first clock.
fn start(device: Device) -> Ran
    ensures { result ≡ record { device = device; report = no_report } }
{
    Ran {
        device,
        report: Report::default(),
    }
}

// n PCLK clocks.
pub fn run(n: u32, d: Device) -> Ran
    ensures { result ≡ ran_of n d }
{
    let start = start(d);
    if d.reset() {
        return start;
    }
    if step::has_caught(d) {
        return parts(n, d);
    }
    catching(n, start)
}
