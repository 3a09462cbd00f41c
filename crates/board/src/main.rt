// Answers each line of standard input on standard output, from a row of fresh devices. Its argument says how many, 1 to 8.
#![tactic(auto)]

ghost use Rattle.std.specs.Prelude.{◌≡◌};
ghost use Rattle.row_bridge.specs.Boards.{boarded};
ghost use Rattle.row_lines.specs.RowLines.{row_line};

use row_bridge::Boarded;
use rows::Shown;
use rules::Device;
use std::env::FillError;
use std::io::{Read, Write};
use std::rt::Env;
use streams::{BUFFER, LARGE_BUFFER};
use texts::Text;

// How many devices the bytes of an argument say: one digit from 1 to 8.
fn count_of(s: &[u8]) -> Option<usize> {
    match s {
        [d @ b'1'..=b'8'] => Some((*d - b'0') as usize),
        _ => None,
    }
}

// Whether there are more arguments than the program takes.
fn has_second<S: Env>(system: &S) -> bool {
    !matches!(system.arg(2, &mut []), Err(FillError::NotPresent))
}

// How many devices the argument says, where there is one and no more.
fn argument<S: Env>(system: &S) -> Option<usize> {
    if has_second(system) {
        return None;
    }
    let mut buf = [0; BUFFER];
    match system.arg(1, &mut buf) {
        Ok(n) => count_of(&buf[..n]),
        Err(_) => None,
    }
}

// Writes what is shown of the first n devices.
fn print_devices<W: Write>(out: &mut W, n: usize, l: [Shown; 8]) {
    for x in l.iter().take(n) {
        let _ = console::print(out, row_lines::device_text(*x));
    }
}

// Says a line to the row, and writes the answer.
fn answer<W: Write>(devices: [Device; 8], n: usize, t: Text, out: &mut W) -> Boarded
    ensures { result ≡ boarded devices n (row_line t) }
{
    let r = row_bridge::event(devices, n, row_lines::event_of_line(t));
    let _ = console::print(out, row_lines::head_text(r.answer));
    print_devices(out, n, r.answer.devices);
    let _ = out.write_all(b"\n");
    r
}

// All lines, from n fresh devices. (A proved loop has to end: its turns are counted.)
fn answer_all<R: Read, W: Write>(n: usize, input: &mut R, out: &mut W) {
    let mut buf = [0; LARGE_BUFFER];
    let mut r = input::start();
    let mut devices = [Device::fresh(); 8];
    for _ in 0..u64::MAX {
        let m = input::next_line(r, input, &mut buf);
        let Some(line) = m.line else {
            return;
        };
        r = m.reader;
        let a = answer(devices, n, line, out);
        devices = a.devices;
    }
}

fn main(rt: HostRuntime) {
    match argument(&rt) {
        Some(n) => answer_all(n, &mut rt.stdin(), &mut rt.stdout()),
        None => {
            let _ = rt
                .stderr()
                .write_all(b"board: the argument is how many devices, 1 to 8\n");
        }
    }
}
