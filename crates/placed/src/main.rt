// A trace through the call that alters a device where it stands, beside the same trace through the call that hands a
// record back. Three lines for each event: the answer in place, the answer by value, and 1 where the two records are the same.
#![tactic(auto)]

use rules::{Device, Event};
use std::io::Write;

// Kind, and its numbers.
const TRACE: [[u32; 4]; 53] = [
    // The paper's first trace, and back to the fresh device.
    [Event::W, 0x00, 0x00, 0],
    [Event::W, 0x01, 0x40, 0],
    [Event::W, 0x17, 0x03, 0],
    [Event::W, 0x1C, 0x80, 0],
    [Event::W, 0x04, 0xA0, 0],
    [Event::W, 0x0A, 0xC6, 0],
    [Event::W, 0x00, 0x84, 0],
    [Event::T, 6, 0, 0],
    [Event::K, 0, 0, 0],
    [Event::R, 0x0A, 0, 0],
    [Event::R, 0x30, 0, 0],
    [Event::X, 0, 0, 0],
    [Event::P, 0x00, 0x00, 0x00],
    [Event::E, 0x01, 0, 0],
    // Counters, patterns and pins at once.
    [Event::W, 0x00, 0x80, 0],
    [Event::W, 0x01, 0xF7, 0],
    [Event::W, 0x1C, 0xA1, 0],
    [Event::W, 0x0A, 0x26, 0],
    [Event::W, 0x19, 0x01, 0],
    [Event::W, 0x1D, 0x41, 0],
    [Event::W, 0x0B, 0xC6, 0],
    [Event::W, 0x1B, 0x01, 0],
    [Event::W, 0x1E, 0xC1, 0],
    [Event::W, 0x0C, 0x26, 0],
    [Event::W, 0x22, 0x00, 0],
    [Event::W, 0x23, 0xFF, 0],
    [Event::W, 0x26, 0x20, 0],
    [Event::W, 0x27, 0x95, 0],
    [Event::W, 0x28, 0x04, 0],
    [Event::W, 0x29, 0x00, 0],
    [Event::W, 0x2A, 0x7B, 0],
    [Event::W, 0x2B, 0x11, 0],
    [Event::W, 0x2C, 0xC4, 0],
    [Event::W, 0x2D, 0x20, 0],
    [Event::W, 0x09, 0xC0, 0],
    [Event::W, 0x03, 0x19, 0],
    [Event::W, 0x06, 0x00, 0],
    [Event::W, 0x07, 0xFF, 0],
    [Event::W, 0x0D, 0x02, 0],
    [Event::W, 0x04, 0x00, 0],
    [Event::W, 0x18, 0x02, 0],
    [Event::P, 0x02, 0x60, 0x00],
    [Event::T, 2, 0, 0],
    // Refusals: 1, 2, 3, 4, 5 thrice, 6; each leaves the record as it is.
    [7, 0, 0, 0],
    [Event::R, 0x30, 0, 0],
    [Event::W, 0x1F, 0, 0],
    [Event::W, 0x20, 0xC0, 0],
    [Event::W, 0, 0x100, 0],
    [Event::P, 0, 0, 0x10],
    [Event::E, 0x02, 0, 0],
    [Event::K, 0, 0, 0],
    // IEI low, then a reset: IEI and the outside pins stay.
    [Event::E, 0, 0, 0],
    [Event::X, 0, 0, 0],
];

// The device that is altered where it stands, and the record that is handed back.
#[derive(Clone, Copy)]
struct Pair {
    placed: Device,
    handed: Device,
}

fn print_same<W: Write>(out: &mut W, d: Device, e: Device) {
    if d == e {
        let _ = out.write_all(b"1\n");
    } else {
        let _ = out.write_all(b"0\n");
    }
}

// One event of the trace, on both.
fn step<W: Write>(out: &mut W, p: Pair, e: Event) -> Pair {
    let placed = bridge::through(p.placed, e);
    let handed = event::event(p.handed, e);
    let _ = console::print(out, texts::answer_text(placed.answer));
    let _ = console::print(out, texts::answer_text(handed.answer));
    print_same(out, placed.device, handed.device);
    Pair {
        placed: placed.device,
        handed: handed.device,
    }
}

fn main(rt: HostRuntime) {
    let mut out = rt.stdout();
    let d = Device::fresh();
    let mut p = Pair {
        placed: d,
        handed: d,
    };
    for [kind, a, b, c] in TRACE {
        p = step(&mut out, p, Event { kind, a, b, c });
    }
}
