// The lines of a board, read as events of a row, and the bytes of its answers.
#![tactic(auto)]

ghost use Rattle.std.specs.Prelude.{◌≡◌, drop};
ghost use Rattle.texts.specs.Kept.{no_text, typed};
ghost use Rattle.lines.specs.Lines.{event_in, says_of};
ghost use Rattle.lines.specs.Pieces.{cut_from};
ghost use Rattle.row_lines.specs.RowLines.{of_device, of_all, row_says, row_line, head_text, alone as alone_of, device_text};

use rows::{RowAnswer, RowEvent, Shown};
use rules::{Answer, Event};
use texts::Text;

// An unreadable line is answered as a kind above 6 is.
const UNREADABLE: RowEvent = RowEvent {
    device: 0,
    event: lines::UNREADABLE,
};

// W, R, P and X have a device before them.
#[tactic(auto, unfolding(crate::specs::RowLines::of_device))]
fn of_device(device: u32, event: Event) -> RowEvent
    ensures { result ≡ of_device device event }
{
    if !rows::names(event) {
        return UNREADABLE;
    }
    RowEvent { device, event }
}

// And T, K and E none.
#[tactic(auto, unfolding(crate::specs::RowLines::of_all))]
fn of_all(event: Event) -> RowEvent
    ensures { result ≡ of_all event }
{
    if rows::names(event) {
        return UNREADABLE;
    }
    RowEvent { device: 0, event }
}

// A line from the place 2 on.
fn rest(s: &[u8]) -> Text
    ensures { result ≡ (cut_from no_text 2 (drop 2 s.now)).text }
{
    lines::cut_from(Text::new(), s, 2).text
}

// What the bytes of a line say that is kept: a line that begins with a digit and a space says of a device what the rest of it says.
#[tactic(auto, unfolding(crate::specs::RowLines::row_says, crate::specs::RowLines::names_device))]
fn said(s: &[u8], t: Text) -> RowEvent
    ensures { result ≡ row_says s.now (event_in (says_of t)) }
{
    if lines::MOST < s.len() {
        return UNREADABLE;
    }
    match s {
        [d @ b'0'..=b'9', b' ', ..] => {
            of_device((*d - b'0').into(), lines::event_of_line(rest(s)))
        }
        _ => of_all(lines::event_of_line(t)),
    }
}

// The event of a line that is kept.
#[tactic(auto, unfolding(crate::specs::RowLines::row_line, crate::specs::RowLines::row_says, texts::specs::Kept::bytes_of, texts::specs::Kept::kept_len, crate::specs::RowLines::names_device))]
pub fn event_of_line(t: Text) -> RowEvent
    ensures { result ≡ row_line t }
{
    // Stays: None where the line had no room; a method for it would be a public call more, whose clause is as long.
    match t.bytes.get(..t.len) {
        Some(s) => said(s, t),
        None => of_all(lines::event_of_line(t)),
    }
}

// The code and the value of an answer.
#[tactic(auto, unfolding(crate::specs::RowLines::head_text), using(texts::proofs::Typing::typed_append))]
pub fn head_text(a: RowAnswer) -> Text
    ensures { result ≡ typed no_text (head_text a) }
{
    Text::new().decimal(a.code.into()).hex(a.value)
}

// What is shown of a device, as an answer.
fn alone(x: Shown) -> Answer
    ensures { result ≡ alone_of x }
{
    Answer {
        code: 0,
        value: 0,
        a: x.a,
        b: x.b,
        c: x.c,
        int: x.int,
        ieo: x.ieo,
        report: x.report,
    }
}

// A device in an answer.
#[tactic(auto, unfolding(crate::specs::RowLines::device_text, texts::specs::Kept::typed))]
pub fn device_text(x: Shown) -> Text
    ensures { result ≡ typed no_text (device_text x) }
{
    Text::new().push(b' ').push(b'|').levels(alone(x))
}
