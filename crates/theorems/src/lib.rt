// Theorems about the definitions of `rules`: see proofs/. There is no code here but the parts of a record that move in T, which the
// definitions in specs/ speak of.
#![tactic(auto)]

use rules::{Counter, Source};

// A counter with its source, its terminals so far, and how many of them were lost.
#[derive(Clone, Copy, PartialEq, Eq)]
pub struct Part {
    pub counter: Counter,
    pub source: Source,
    pub terminals: u32,
    pub lost: u32,
}

// What a port's pattern moves: PMF, and the port's source.
#[derive(Clone, Copy, PartialEq, Eq)]
pub struct Side {
    pub pmf: bool,
    pub source: Source,
}

// What goes together where CT1's output reaches CT2, or an output Port B's pattern: both counters, CT2's terminals so far, and B's side.
#[derive(Clone, Copy, PartialEq, Eq)]
pub struct Pair {
    pub one: Counter,
    pub two: Counter,
    pub terminals: u32,
    pub side: Side,
}
