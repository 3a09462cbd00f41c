// A run of the pair: leaps, and whole rounds.
ghost use Rattle.std.specs.Prelude.{◌≡◌, true, false, ◌&&◌, ◌+◌, ◌-◌, ◌*◌, ◌≤◌, ◌<◌};
ghost use Rattle.basics.specs.Iterate.{iterate};
ghost use Rattle.linked.specs.Stage.{paired_on};
ghost use Rattle.theorems.specs.Stretch.{lower_of};
ghost use Rattle.linked.specs.Chase.{lowered_of, with_terminals, Above, Leaps, Holds, Follows};

use crate::stage::Stage;
use rules::Counter;
use theorems::{Pair, Side};

// Some clocks of a run at once.
#[derive(Clone, Copy)]
pub struct Leap {
    pub pair: Pair,
    pub clocks: u32,
}

// A run in search of its rounds: the present, an earlier moment (the anchor), the clocks and the leaps since, after how many
// leaps the anchor is renewed, and the clocks that are left.
#[derive(Clone, Copy)]
pub struct Chase {
    pub now: Pair,
    pub anchor: Pair,
    pub since: u32,
    pub leaps: u32,
    pub span: u32,
    pub left: u32,
}

// Which of the two counters have moved and may go on.
#[derive(Clone, Copy)]
pub struct Moves {
    pub one: bool,
    pub two: bool,
}

// Whether two sides are the same.
// Stays: a run goes by `record::same_source` and `record::same_counter`, whose clauses docs/PROMISES.md has.
fn same_side(x: Side, y: Side) -> bool
    ensures { result ≡ true → x ≡ y }
{
    (x.pmf == y.pmf) & record::same_source(x.source, y.source)
}

// Whether two are the same, their terminals apart.
// Stays: likewise.
fn came_back(x: Pair, y: Pair) -> bool
    ensures { result ≡ true → with_terminals x y.terminals ≡ y }
{
    record::same_counter(x.one, y.one)
        & record::same_counter(x.two, y.two)
        & same_side(x.side, y.side)
}

// Whether a counter has moved and may go on.
fn goes_on(then: Counter, now: Counter) -> bool
    ensures { result ≡ true → 3 ≤ then.count }
{
    (then.count != now.count) & (2 < then.count)
}

// A counter k counts later, if it moves.
#[tactic(auto, unfolding(theorems::specs::Stretch::lower_of))]
fn lower(k: u32, moves: bool, c: Counter) -> Counter
    requires { moves ≡ true → k ≤ c.count }
    ensures { result ≡ lower_of k moves c }
{
    if moves {
        let count = ((c.count as u32) - k) as u16;
        return Counter { count, ..c };
    }
    c
}

// A pair k counts later.
#[tactic(auto, unfolding(crate::specs::Chase::lowered_of))]
fn lowered(k: u32, m: Moves, x: Pair) -> Pair
    requires { Above k m x }
    ensures { result ≡ lowered_of k m x }
{
    Pair {
        one: lower(k, m.one, x.one),
        two: lower(k, m.two, x.two),
        ..x
    }
}

// How many of k counts leave a counter that moves above 1.
fn room(k: u32, moves: bool, c: Counter) -> u32
    requires { moves ≡ true → 3 ≤ c.count }
    ensures { (result ≤ k) × (moves ≡ true → result + 2 ≤ c.count) × (0 < k → 0 < result) × (c.count < 65536) }
{
    if moves {
        return k.min((c.count as u32) - 2);
    }
    k
}

// Whether nothing but the counts that move is another, each by one.
fn only_moved(m: Moves, then: Pair, now: Pair) -> bool
    requires { Above 3 m then }
    ensures { result ≡ true → now ≡ lowered_of 1 m then }
{
    now == lowered(1, m, then)
}

// All clocks like the first.
fn far(f: Stage, m: Moves, x: Pair, left: u32) -> Leap
    requires { (0 < left) × Above 3 m x × (paired_on f x ≡ lowered_of 1 m x) }
    ensures { Leaps f x left result }
{
    let clocks = room(room(left, m.one, x.one), m.two, x.two);
    Leap {
        pair: lowered(clocks, m, x),
        clocks,
    }
}

// A clock, or all clocks like it.
#[tactic(auto, unfolding(basics::specs::Iterate::iterate))]
fn leapt(f: Stage, x: Pair, left: u32) -> Leap
    requires { (0 < left) × (x.terminals + left ≤ 4294967295) }
    ensures { Leaps f x left result }
{
    let next = f.clock(x);
    let m = Moves {
        one: goes_on(x.one, next.one),
        two: goes_on(x.two, next.two),
    };
    if only_moved(m, x, next) {
        return far(f, m, x, left);
    }
    Leap {
        pair: next,
        clocks: 1,
    }
}

// One leap.
// Stays: a struct of the Stage and the Chase with Holds as its invariant would copy the Stage at each leap.
fn advanced(f: Stage, c: Chase) -> Chase
    requires { Holds f c × (0 < c.left) }
    ensures { Follows f c result × (result.left < c.left) × (0 < result.since) }
{
    let l = leapt(f, c.now, c.left);
    Chase {
        now: l.pair,
        since: c.since + l.clocks,
        left: c.left - l.clocks,
        ..c
    }
}

// The pair has come back: all whole rounds that are left.
// Stays: a struct of the Stage and the Chase with Holds as its invariant would copy the Stage at each leap.
#[tactic(auto, unfolding(crate::specs::Chase::with_terminals))]
fn skipped(f: Stage, c: Chase) -> Chase
    requires { Holds f c × (0 < c.since) × (with_terminals c.now c.anchor.terminals ≡ c.anchor) }
    ensures { Follows f c result }
{
    let q = c.left / c.since;
    let there = Pair {
        terminals: c.now.terminals + q * (c.now.terminals - c.anchor.terminals),
        ..c.now
    };
    Chase {
        now: there,
        anchor: there,
        since: 0,
        leaps: 0,
        left: c.left % c.since,
        ..c
    }
}

// The present is the anchor, for twice as many leaps.
// Stays: a struct of the Stage and the Chase with Holds as its invariant would copy the Stage at each leap.
fn renewed(f: Stage, c: Chase) -> Chase
    requires { Holds f c }
    ensures { Follows f c result }
{
    Chase {
        anchor: c.now,
        since: 0,
        leaps: 0,
        span: c.span.saturating_mul(2),
        ..c
    }
}

// The rounds that are left, where the pair has come back; else the same moment, perhaps as the anchor.
// Stays: a struct of the Stage and the Chase with Holds as its invariant would copy the Stage at each leap.
fn turned(f: Stage, c: Chase) -> Chase
    requires { Holds f c × (0 < c.since) }
    ensures { Follows f c result }
{
    if came_back(c.now, c.anchor) {
        return skipped(f, c);
    }
    if c.leaps < c.span {
        return Chase {
            leaps: c.leaps + 1,
            ..c
        };
    }
    renewed(f, c)
}

// k timer clocks, in search of rounds.
fn by_rounds(f: Stage, x: Pair, k: u32) -> Pair
    requires { x.terminals + k ≤ 4294967295 }
    ensures { result ≡ iterate k (paired_on f) x }
{
    let mut c = Chase {
        now: x,
        anchor: x,
        since: 0,
        leaps: 0,
        span: 1,
        left: k,
    };
    // Stays: the clocks that are left fall by a leap at a time, however long, so no range counts them.
    while 0 < c.left {
        c = turned(f, advanced(f, c));
    }
    c.now
}

// How many leaps a run takes before it looks for rounds: one that is over by then pays for no anchor and compares nothing with it.
const A_WHILE: u32 = 16;

// k timer clocks.
#[tactic(auto, unfolding(basics::specs::Iterate::iterate))]
pub(crate) fn run(f: Stage, x: Pair, k: u32) -> Pair
    requires { x.terminals ≡ 0 }
    ensures { result ≡ iterate k (paired_on f) x }
{
    let mut now = x;
    let mut left = k;
    for _ in 0..A_WHILE {
        if left == 0 {
            return now;
        }
        let l = leapt(f, now, left);
        now = l.pair;
        left -= l.clocks;
    }
    by_rounds(f, now, left)
}
