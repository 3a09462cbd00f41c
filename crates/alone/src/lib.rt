// A counter that goes alone over k timer clocks, with its source, by division.
#![tactic(auto)]

mod free;

ghost use Rattle.std.specs.Prelude.{◌≡◌, true, false, ◌<◌, ◌≤◌, ◌%◌};
ghost use Rattle.rules.specs.Counters.{continuous, square};
ghost use Rattle.rules.specs.Patterns.{event_by, hides_by};
ghost use Rattle.theorems.specs.Free.{free_places, lost_after};
ghost use Rattle.theorems.specs.Alone.{reloads_in, last_terminal, last_clock, stops_by, half_after, terminal_at, running_after, stopped_after};
ghost use Rattle.theorems.specs.Alone.{counter_after, terminals_in, struck_by, source_after, placed_by, alone_after};

use free::full;
pub use free::{count_after, terminals_after};
use rules::{Counter, Pattern, Source};
use theorems::Part;

// The highest number that a counter holds.
const LAST: u16 = 65535;

// Stays: `counters` has the same test for itself; to call it this crate would need that crate, and a public function more.
fn is_square(c: Counter) -> bool
    ensures { result ≡ square c }
{
    c.mode % 4 == 2
}

// The terminals of k counts of a counter that is always reloaded.
#[tactic(auto, unfolding(theorems::specs::Alone::reloads_in))]
fn reloads(c: Counter, k: u32) -> u32
    ensures { (result ≡ reloads_in c k) × (result ≤ k) }
{
    terminals_after(LAST, c.count, c.constant, k)
}

// Which terminal is the last of a counter that is not continuous, and its clock.
#[tactic(auto, unfolding(theorems::specs::Alone::last_terminal))]
fn last(c: Counter) -> u32
    ensures { (result ≡ last_terminal c) × (0 < result) × (result ≤ 2) }
{
    if is_square(c) & !c.half {
        return 2;
    }
    1
}

#[tactic(auto, unfolding(theorems::specs::Alone::last_clock))]
fn last_clock(c: Counter) -> u32
    ensures { result ≡ last_clock c }
{
    full(LAST, c.count) + (last(c) - 1) * full(LAST, c.constant)
}

#[tactic(auto, unfolding(theorems::specs::Alone::stops_by))]
fn stops(c: Counter, n: u32) -> bool
    ensures { result ≡ stops_by c n }
{
    !(c.mode / 128 % 2 == 1) & (last(c) <= n)
}

#[tactic(auto, unfolding(theorems::specs::Alone::half_after))]
fn half(c: Counter, n: u32) -> bool
    ensures { result ≡ half_after c n }
{
    if n == 0 {
        return c.half;
    }
    is_square(c) & (c.half != (n % 2 == 1))
}

// Whether clock k was terminal.
#[tactic(auto, unfolding(theorems::specs::Alone::terminal_at))]
fn terminal(c: Counter, k: u32) -> bool
    ensures { result ≡ terminal_at c k }
{
    let first = full(LAST, c.count);
    if k < first {
        return false;
    }
    (k - first) % full(LAST, c.constant) == 0
}

#[tactic(auto, unfolding(theorems::specs::Alone::running_after))]
fn running(version: u8, c: Counter, k: u32) -> Counter
    ensures { result ≡ running_after version c k }
{
    Counter {
        count: count_after(LAST, c.count, c.constant, k),
        half: half(c, reloads(c, k)),
        pulse: (version == 2) & terminal(c, k),
        ..c
    }
}

#[tactic(auto, unfolding(theorems::specs::Alone::stopped_after))]
fn stopped(version: u8, c: Counter, k: u32) -> Counter
    ensures { result ≡ stopped_after version c k }
{
    Counter {
        count: 0,
        cip: false,
        half: false,
        pulse: (version == 2) & (k == last_clock(c)),
        ..c
    }
}

#[tactic(auto, unfolding(theorems::specs::Alone::counter_after))]
fn counter(version: u8, comes: bool, c: Counter, k: u32) -> Counter
    ensures { result ≡ counter_after version comes c k }
{
    if !comes | (k == 0) {
        return c;
    }
    if !c.cip {
        return Counter { pulse: false, ..c };
    }
    if stops(c, reloads(c, k)) {
        return stopped(version, c, k);
    }
    running(version, c, k)
}

#[tactic(auto, unfolding(theorems::specs::Alone::terminals_in))]
fn terminals(comes: bool, c: Counter, k: u32) -> u32
    ensures { result ≡ terminals_in comes c k }
{
    if !comes | !c.cip {
        return 0;
    }
    let n = reloads(c, k);
    if stops(c, n) {
        return last(c);
    }
    n
}

// A port's source after a step in which its pattern q matches or not, and did so at the step before, or not.
pub fn matched(q: Pattern, pmf: bool, matches: bool, s: Source) -> Source
    ensures { result ≡ struck_by (hides_by q) (event_by q pmf matches) s }
{
    sources::matched(q, pmf, matches, s)
}

// A source to which a terminal comes.
#[tactic(auto, unfolding(theorems::specs::Alone::struck_by))]
fn struck(s: Source) -> Source
    ensures { result ≡ struck_by true true s }
{
    sources::left(sources::fate(true, true, s), s)
}

#[tactic(auto, unfolding(theorems::specs::Alone::source_after))]
fn source(s: Source, n: u32) -> Source
    ensures { result ≡ source_after s n }
{
    match n {
        0 => s,
        1 => struck(s),
        _ => struck(struck(s)),
    }
}

// Where an event still finds a place.
#[tactic(auto, unfolding(theorems::specs::Free::free_places))]
fn places(s: Source) -> u32
    ensures { result ≡ free_places s }
{
    u32::from(!s.ip) + u32::from(!(s.err | s.hidden))
}

#[tactic(auto, unfolding(theorems::specs::Free::lost_after))]
fn lost(s: Source, n: u32) -> u32
    ensures { result ≡ lost_after s n }
{
    n.saturating_sub(places(s))
}

// A counter after n terminals, with its source, which was s.
#[tactic(auto, unfolding(theorems::specs::Alone::placed_by))]
pub fn placed(c: Counter, s: Source, n: u32) -> Part
    ensures { result ≡ placed_by c s n }
{
    Part {
        counter: c,
        source: source(s, n),
        terminals: n,
        lost: lost(s, n),
    }
}

// A counter after k timer clocks, which come to it or do not, with its source.
#[tactic(auto, unfolding(theorems::specs::Alone::alone_after))]
pub fn alone(version: u8, comes: bool, c: Counter, s: Source, k: u32) -> Part
    ensures { result ≡ alone_after version comes c s k }
{
    let n = terminals(comes, c, k);
    placed(counter(version, comes, c, k), s, n)
}
