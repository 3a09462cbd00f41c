// One device of a row, and what goes along the row from each device to the next. An event of a row is two passes: the first looks
// (is the row sound, how long is it, what does the device say that the event reaches), the second acts, or shows the row as it stands.
#![tactic(auto)]

mod acts;
mod looks;

pub use acts::{acted, acting};
pub use looks::{looked, looking};
use rows::{RowAnswer, RowEvent};
use rules::Device;

// What goes along the row. The second pass acts on the devices, or not, and shows them in the answer, or not; the first does neither.
// `to` is how many devices come before the one that is named, `found` whether the one reached has come by, `place` how many have come
// by, of more than eight 9; `high` is the IEO of the one before, and `sound` tells of those that have come by.
// Stays: `found` tells of a device and not of a field beside it.
#[derive(Clone, Copy)]
pub struct Pass {
    pub event: RowEvent,
    pub acts: bool,
    pub shows: bool,
    pub to: u32,
    pub found: bool,
    pub place: usize,
    pub high: bool,
    pub sound: bool,
    pub answer: RowAnswer,
}

// A device that the second pass has visited, and the pass.
#[derive(Clone, Copy)]
pub struct Seen {
    pub device: Device,
    pub pass: Pass,
}
