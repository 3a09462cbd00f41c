// Answers each line of standard input on standard output, from the fresh device, and measures how long interrupts wait; at the
// end of the input the table, a line each for CT3, A, CT2, B, CT1: acknowledged, least, greatest, sum.
#![tactic(auto)]

ghost use Rattle.std.specs.Prelude.{◌≡◌};
ghost use Rattle.lines.specs.Lines.{event_in, says_of};
ghost use Rattle.measure.specs.Measure.{measured_of};

use measure::{Measure, Measured};
use rules::Device;
use std::io::{Read, Write};
use streams::LARGE_BUFFER;
use texts::Text;

// Says a line to the device, and writes the answer.
fn answer<W: Write>(m: Measure, d: Device, t: Text, out: &mut W) -> Measured
    ensures { result ≡ measured_of m d (event_in (says_of t)) }
{
    let r = measure::event(m, d, lines::event_of_line(t));
    let _ = console::print(out, texts::answer_text(r.answer));
    r
}

// All lines, from the fresh device: the measure at the end. (A proved loop has to end: its turns are counted.)
fn answer_all<R: Read, W: Write>(input: &mut R, out: &mut W) -> Measure {
    let mut buf = [0; LARGE_BUFFER];
    let mut r = input::start();
    let mut m = Measure::start();
    let mut d = Device::fresh();
    for _ in 0..u64::MAX {
        let n = input::next_line(r, input, &mut buf);
        let Some(line) = n.line else {
            return m;
        };
        r = n.reader;
        let a = answer(m, d, line, out);
        m = a.measure;
        d = a.device;
    }
    m
}

// A row of the table. Each number is tried, also after one that could not be written.
fn print_row<W: Write>(out: &mut W, row: [u64; 4]) {
    for (i, n) in row.iter().enumerate() {
        let _ = write!(out, "{n}");
        let _ = out.write_all(if i < 3 { b" " } else { b"\n" });
    }
}

fn main(rt: HostRuntime) {
    let mut out = rt.stdout();
    let table = measure::table(answer_all(&mut rt.stdin(), &mut out));
    for row in table {
        print_row(&mut out, row);
    }
}
