// The bench: an answer of the board, as a line has it, beside the model's.
#![tactic(auto)]

mod agreed;
mod comparing;
mod fields;
mod names;

pub use agreed::agreed_to;
pub use comparing::{compare, compare_kept};
pub use names::field_name;

// How many fields an answer has.
pub const FIELDS: usize = 13;

// A line that is readable, beside an answer: whether no field differs, and which do.
// Stays: `agrees` is worked out from `differs` once, as the definition has it (bench_lines/Compared.compared_of).
#[derive(Clone, Copy)]
pub struct Compared {
    pub agrees: bool,
    pub differs: [bool; FIELDS],
}
