// A row of devices on one board, the first nearest the processor: what goes in and comes out of its events (W-212). The rules over it
// are in specs/.
#![tactic(auto)]

ghost use Rattle.std.specs.Prelude.{◌≡◌};
ghost use Rattle.rows.specs.Rows.{names};

use rules::{Event, Report};

// An event of a row, and the device that it names; the first is 0. A kind that names none ignores the number.
#[derive(Clone, Copy)]
pub struct RowEvent {
    pub device: u32,
    pub event: Event,
}

// What an answer says of one device.
#[derive(Clone, Copy, Default, PartialEq, Eq)]
pub struct Shown {
    pub a: u8,
    pub b: u8,
    pub c: u8,
    pub int: bool,
    pub ieo: bool,
    pub report: Report,
}

// The answer to an event of a row: one code and value, and each device. Places past the end of the row are all 0.
// Stays: `code` is a number, as that of one device's answer is (rules::Answer).
#[derive(Clone, Copy, PartialEq, Eq)]
pub struct RowAnswer {
    pub code: u8,
    pub value: u8,
    pub devices: [Shown; 8],
}

// Whether a kind of event names a device.
#[tactic(auto, unfolding(crate::specs::Rows::names))]
pub fn names(e: Event) -> bool
    ensures { result ≡ names e }
{
    let k = e.kind;
    (k == Event::W) | (k == Event::R) | (k == Event::P) | (k == Event::X)
}
