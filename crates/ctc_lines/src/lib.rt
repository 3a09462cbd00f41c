// The lines of a CTC's trace: what one says, and the line of its answer.
#![tactic(auto)]

mod answers;
mod reading;

pub use answers::answer_text;
pub use reading::outcome;
