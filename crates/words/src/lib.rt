// The device in words.
#![tactic(auto)]

mod cells;
mod counters_shown;
mod heads;
mod ports_shown;
mod shown;
mod sources_shown;

pub use cells::{bit_cell, either, label, number_cell, yes_cell};
pub use heads::pointer_line;
pub use shown::{LINES, line};
