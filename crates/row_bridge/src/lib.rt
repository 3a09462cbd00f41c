// A board by value goes through the call that takes a row by `&mut`: whoever calls this needs no walk by hand.
#![tactic(auto)]

ghost use Rattle.std.specs.Prelude.{◌≡◌, ◌≤◌};
ghost use Rattle.row_bridge.specs.Boards.{few_of, boarded};

use rows::{RowAnswer, RowEvent};
use rules::Device;

// Room for eight devices after an event, and the answer.
// Stays: as an `Outcome` its field `device` would be eight of them.
#[derive(Clone, Copy)]
pub struct Boarded {
    pub devices: [Device; 8],
    pub answer: RowAnswer,
}

// How many devices a board has: a count above eight says eight.
#[tactic(auto, unfolding(crate::specs::Boards::few_of))]
fn few(count: usize) -> usize
    ensures { (result ≡ few_of count) × (result ≤ 8) }
{
    count.min(8)
}

// An event of the row of the first devices.
pub fn event(devices: [Device; 8], count: usize, e: RowEvent) -> Boarded
    ensures { result ≡ boarded devices count e }
{
    let n = few(count);
    let mut devices = devices;
    let answer = row::event(&mut devices[..n], e);
    Boarded { devices, answer }
}
