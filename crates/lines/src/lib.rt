// The lines of a trace: cut from an input that comes in pieces, and read as events.
#![tactic(auto)]

mod pieces;
mod reading;

pub use pieces::{cut_from, line_end};
pub use reading::{MOST, UNREADABLE, decimal, digit, event_of, event_of_line};
use texts::Text;

// What was found of a line in a piece: its bytes, the place in the piece after them, and whether the line is whole.
// Stays: the bytes and the place are there whether the line is whole or not.
#[derive(Clone, Copy)]
pub struct Cut {
    pub text: Text,
    pub next: usize,
    pub whole: bool,
}
