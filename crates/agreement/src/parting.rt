// Where a board and the model part.
ghost use Rattle.std.specs.Prelude.{◌≡◌, ◌≤◌, length};
ghost use Rattle.agreement.specs.Turns.{beside_of, onward_of};

use crate::Turn;
use bench_lines::FIELDS;
use chip::{Chip, Vetted};
use console::print;
use input::Reader;
use rules::Answer;
use std::io::{Read, Write};
use streams::LARGE_BUFFER;
use texts::{ROOM, Text};

// How two files part, and at which line; or how many lines agree, where both have ended.
#[derive(Clone, Copy)]
pub(crate) enum Parting {
    // The lines do not agree, and were printed.
    Apart,
    Unreadable(u64),
    NoEvent(u64),
    NoAnswer(u64),
    Ended(u64),
}

// Says a line of TRACE to the device, and compares the answer with a line of BOARD: the device after it, which need not be asked again, is
// the first.
#[tactic(auto, unfolding(crate::specs::Turns::beside_of))]
fn beside(d: &Vetted, event: Text, board: Text) -> (Vetted, Turn)
    ensures { result ≡ ((beside_of d.now event board).device, beside_of d.now event board) }
{
    let o = d.event(lines::event_of_line(event));
    let t = Turn {
        device: o.device.device(),
        model: o.answer,
        compared: bench_lines::compare_kept(o.answer, board),
    };
    (o.device, t)
}

// Where two files have come to side by side: the device, the places in what was read of them, and how many lines agree.
#[derive(Drop)]
pub(crate) struct Abreast {
    pub device: Vetted,
    pub event: usize,
    pub board: usize,
    pub agreed: u64,
}

// One line more of both, read where they stand, if both end there and agree.
fn onward(a: &Abreast, read: &[u8], measured: &[u8]) -> Option<Abreast>
    ensures { result ≡ onward_of a.now read.now measured.now }
{
    let i = a.event;
    let e = lines::line_end(read, i);
    if (e < read.len()) & (a.agreed < u64::MAX) {
        let o = a.device.event(lines::event_of(&read[i..e]));
        let next = bench_lines::agreed_to(o.answer, measured, a.board);
        if next == a.board {
            return None;
        }
        return Some(Abreast {
            device: o.device,
            event: e + 1,
            board: next,
            agreed: a.agreed + 1,
        });
    }
    None
}

// All lines that agree and end in what was read of both.
// Stays: the loop ends at the first line that does not agree, and not at a count.
fn onward_all(start: Abreast, read: &[u8], measured: &[u8]) -> Abreast
    ensures { start.agreed ≤ result.agreed }
{
    let mut a = start;
    while let Some(next) = onward(&a, read, measured) {
        a = next;
    }
    a
}

// Up to where lines may be read as they stand in a buffer: nowhere, if one has begun before it.
fn ready(r: Reader, buf: &[u8]) -> usize
    ensures { result ≤ length buf.now }
{
    if (r.text.len == 0) & (r.end <= buf.len()) {
        return r.end;
    }
    0
}

// All lines that agree and end in what two readers have read, as far as they may be read as they stand.
fn onward_read(
    start: Abreast,
    events: Reader,
    answers: Reader,
    read: &[u8],
    measured: &[u8],
) -> Abreast
    ensures { start.agreed ≤ result.agreed }
{
    let i = ready(events, read);
    let j = ready(answers, measured);
    onward_all(start, &read[..i], &measured[..j])
}

// A label as `show` has them, and a line as it stands in its file.
fn print_line<W: Write>(out: &mut W, label: &[u8], t: Text) {
    let _ = out.write_all(label);
    if ROOM < t.len {
        let _ = out.write_all(b"a line of more than 96 bytes\n");
        return;
    }
    let _ = print(out, t);
    let _ = out.write_all(b"\n");
}

// A line that is readable and does not agree, the fields that differ by name, and the device before it.
fn print_parted<W: Write>(
    out: &mut W,
    line: u64,
    d: Chip,
    event: Text,
    board: Text,
    model: Answer,
    differs: [bool; FIELDS],
) {
    let _ = out.write_all(b"line            ");
    let _ = write!(out, "{line}");
    let _ = out.write_all(b"\n");
    print_line(out, b"event           ", event);
    print_line(out, b"board           ", board);
    let _ = out.write_all(b"model           ");
    let _ = print(out, texts::answer_text(model));
    for (place, differs) in differs.iter().enumerate() {
        if *differs {
            print_line(out, b"differs         ", bench_lines::field_name(place));
        }
    }
    let _ = out.write_all(b"before this event\n");
    image_files::show_device(d, out);
}

// The device after a line of both that agrees; else how they part.
fn agree<W: Write>(
    d: &Vetted,
    line: u64,
    event: Text,
    board: Text,
    out: &mut W,
) -> Result<Vetted, Parting> {
    let (after, t) = beside(d, event, board);
    let Some(compared) = t.compared else {
        return Err(Parting::Unreadable(line));
    };
    if !compared.agrees {
        let before = d.device();
        print_parted(out, line, before, event, board, t.model, compared.differs);
        return Err(Parting::Apart);
    }
    Ok(after)
}

// The lines of two inputs side by side, up to the first that does not agree, which is printed, or that one of them has not. (A
// proved loop has to end, and nothing says that the input does: its turns are counted, up to a number that no run reaches.) Whether the
// device is sound is asked once.
pub(crate) fn part<R: Read, S: Read, W: Write>(
    d: Chip,
    events: &mut R,
    answers: &mut S,
    out: &mut W,
) -> Parting {
    let mut read = [0; LARGE_BUFFER];
    let mut measured = [0; LARGE_BUFFER];
    let mut r = input::start();
    let mut s = input::start();
    let mut device = Vetted::of(d);
    let mut agreed: u64 = 0;
    // Stays: the lines that agree are counted, by one or by many in a turn.
    while agreed < u64::MAX {
        let line = agreed + 1;
        let n = input::next_line(r, events, &mut read);
        let m = input::next_line(s, answers, &mut measured);
        let (event, board) = match (n.line, m.line) {
            (Some(event), Some(board)) => (event, board),
            (Some(_), None) => return Parting::NoAnswer(line),
            (None, Some(_)) => return Parting::NoEvent(line),
            (None, None) => return Parting::Ended(agreed),
        };
        let next = match agree(&device, line, event, board, out) {
            Ok(next) => next,
            Err(parting) => return parting,
        };
        let start = Abreast {
            device: next,
            event: n.reader.at,
            board: m.reader.at,
            agreed: line,
        };
        let a = onward_read(start, n.reader, m.reader, &read, &measured);
        r = n.reader;
        r.at = a.event;
        s = m.reader;
        s.at = a.board;
        device = a.device;
        agreed = a.agreed;
    }
    Parting::Unreadable(agreed)
}
