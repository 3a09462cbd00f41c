// Texts and answers on streams.
#![tactic(auto)]

ghost use Rattle.std.specs.Prelude.{◌≡◌, ◌≤◌, ◌<◌, length, take, IsErr, IfOk, OnOk};
ghost use Rattle.std.specs.Io.KnownBytes.{Appends};
ghost use Rattle.texts.specs.Kept.{text_room};
ghost use Rattle.session.specs.Sessions.{device_last, after_of, answers_in, answers_last};
ghost use Rattle.console.specs.Console.{Answered, Printed};

use chip::Chip;
use session::Session;
use std::io;
use std::io::{ErrorKind, Read, Write};
use streams::{BUFFER, LARGE_BUFFER};
use texts::Text;

// Writes a text; one that has no room is refused.
pub fn print<W: Write>(out: &mut W, t: Text) -> io::Result<()>
    ensures no_room { text_room < t.len → IsErr result }
    ensures bytes { OnOk result (Appends (W.contents out.old) (W.contents out.new) (take t.len t.bytes)) }
{
    // Stays: None where the line had no room; a method for it would be a public call more, whose clause is as long.
    match t.bytes.get(..t.len) {
        Some(bytes) => out.write_all(bytes),
        None => Err(io::Error::from(ErrorKind::InvalidInput)),
    }
}

// Why answers could not be written, and the session after them.
#[derive(Drop)]
struct Unwritten {
    session: Session,
    error: io::Error,
}

// Answers the lines of a piece, and writes the answers out whenever the buffer may be full, and at the end of the piece.
fn answer_piece<W: Write>(
    s: Session,
    piece: &[u8],
    out: &mut [u8],
    answers: &mut W,
) -> Result<Session, Unwritten>
    requires { text_room ≤ length out.old }
    ensures { IfOk result (λ t. (t ≡ after_of s piece.now) × Appends (W.contents answers.old) (W.contents answers.new) (answers_in s piece.now)) }
{
    let mut t = s;
    let mut at = 0;
    // Stays: a turn goes on by as many bytes as had room for their answers.
    while at < piece.len() {
        let f = session::feed(t, piece, at, out);
        t = f.session;
        at = f.next;
        match answers.write_all(&out[..f.len]) {
            Ok(()) => {}
            Err(error) => return Err(Unwritten { session: t, error }),
        }
    }
    Ok(t)
}

// A proved loop has to end, and nothing says that the input does. So the loop counts its turns, up to a number that no run
// reaches.
fn answer_all<R: Read, W: Write>(
    s: Session,
    input: &mut R,
    read: &mut [u8],
    out: &mut [u8],
    answers: &mut W,
) -> Result<Session, Unwritten>
    requires { text_room ≤ length out.old }
    ensures { IfOk result (λ t. Answered s t (R.remaining input.old) (R.remaining input.new) (W.contents answers.old) (W.contents answers.new)) }
{
    let mut t = s;
    for _ in 0..u64::MAX {
        let n = streams::read(input, read);
        if n == 0 {
            return Ok(t);
        }
        t = answer_piece(t, &read[..n], out, answers)?;
    }
    Ok(t)
}

// "the last line feed may be missing": answers a last line that has none.
fn answer_last<W: Write>(s: Session, answers: &mut W) -> io::Result<Chip>
    ensures { IfOk result (λ d. (d ≡ device_last s) × Appends (W.contents answers.old) (W.contents answers.new) (answers_last s)) }
{
    let mut out = [0; BUFFER];
    let a = session::finish(s, &mut out);
    answers.write_all(&out[..a.len])?;
    Ok(a.device)
}

// Answers the lines of an input as they arrive, from a device on: the device after them. Where answers cannot be written, what is kept of a
// last line is answered all the same.
pub fn run<R: Read, W: Write>(d: Chip, input: &mut R, answers: &mut W) -> io::Result<Chip>
    ensures { IfOk result (λ e. Printed d e (R.remaining input.old) (R.remaining input.new) (W.contents answers.old) (W.contents answers.new)) }
{
    let mut read = [0; LARGE_BUFFER];
    let mut out = [0; LARGE_BUFFER];
    match answer_all(session::start(d), input, &mut read, &mut out, answers) {
        Ok(s) => answer_last(s, answers),
        Err(unwritten) => {
            let _ = answer_last(unwritten.session, answers);
            Err(unwritten.error)
        }
    }
}
