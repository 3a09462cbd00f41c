// What is said of a file after its name.
#![tactic(auto)]

mod refusals;

pub use refusals::{Trouble, refusal_line, trouble_line};
