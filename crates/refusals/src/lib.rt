// What is refused: whether a record is sound, and what refuses an event.
#![tactic(auto)]

mod codes;
mod settings;
mod soundness;

pub use codes::{admit, admit_known};
pub use soundness::sound;
