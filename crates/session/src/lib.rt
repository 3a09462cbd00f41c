// The session of the trace program: a device, what is kept of a line that has not ended, and answers in a lent buffer.
#![tactic(auto)]

ghost use Rattle.std.specs.Prelude.{◌≡◌, cond, ◌+◌, ◌≤◌, length};
ghost use Rattle.chip.specs.Chips.{event_chip};
ghost use Rattle.texts.specs.Answers.{answer_text};
ghost use Rattle.texts.specs.Kept.{text_room};
ghost use Rattle.basics.specs.Buffer.{fits, laid_of};
ghost use Rattle.session.specs.Sessions.{start_of, answers_in, answers_last, bytes_read, fed_by, answered, finished_by, line_in, fed_of, line_fed};

use chip::{Chip, Vetted};
use rules::Event;
use texts::Text;

#[derive(Clone, Copy)]
pub struct Session {
    pub device: Chip,
    pub text: Text,
}

// A session after some bytes of a piece: the place after them, and how long the answers in the buffer are.
// Stays: `len` counts bytes of the caller's buffer, which a call lends and takes back.
#[derive(Clone, Copy)]
pub struct Fed {
    pub session: Session,
    pub next: usize,
    pub len: usize,
}

// A device after a line, and where its answer ends in the buffer.
// Stays: `len` counts bytes of the caller's buffer, which a call lends and takes back.
#[derive(Clone, Copy)]
pub struct Told {
    pub device: Chip,
    pub len: usize,
}

// A session as Fed has it, of a device that need not be asked again whether it is sound.
// Stays: `len` counts bytes of the caller's buffer, which a call lends and takes back.
#[derive(Drop)]
struct Taken {
    device: Vetted,
    text: Text,
    next: usize,
    len: usize,
}

// Before the first byte.
pub fn start(d: Chip) -> Session
    ensures { result ≡ start_of d }
{
    Session {
        device: d,
        text: Text::new(),
    }
}

// After a line that ends before a place: its event is said to the device, and the answer laid into the buffer. The next line has no byte
// yet.
fn told_on(f: Taken, next: usize, e: Event, out: &mut [u8]) -> Taken
    ensures session_value { (fed_of result).session ≡ start_of (event_chip f.device e).device }
    ensures next_value { result.next ≡ next }
    ensures len_value { result.len ≡ cond (fits out.old f.len (answer_text (event_chip f.device e).answer)) (f.len + length (answer_text (event_chip f.device e).answer)) f.len }
    ensures out_after { out.new ≡ laid_of out.old f.len (answer_text (event_chip f.device e).answer) }
{
    let o = f.device.event(e);
    Taken {
        device: o.device,
        text: Text::new(),
        next,
        len: texts::write_answer(o.answer, out, f.len),
    }
}

// One line more of a piece, which may have begun in a piece before and may not end in this one.
fn cut_line(f: Taken, piece: &[u8], out: &mut [u8]) -> Taken
    requires { f.len + text_room ≤ length out.old }
    ensures value { fed_of result ≡ line_fed (fed_of f) (line_in piece.now f.next) }
    ensures out_after { out.new ≡ laid_of out.old f.len (answers_in (fed_of f).session (line_in piece.now f.next)) }
{
    let c = lines::cut_from(f.text, piece, f.next);
    if c.whole {
        return told_on(f, c.next, lines::event_of_line(c.text), out);
    }
    Taken {
        device: f.device,
        text: c.text,
        next: c.next,
        len: f.len,
    }
}

// One line more of a piece, or what there is of one: one that begins and ends in it is read where it stands.
fn take_line(f: Taken, piece: &[u8], out: &mut [u8]) -> Taken
    requires { f.len + text_room ≤ length out.old }
    ensures value { fed_of result ≡ line_fed (fed_of f) (line_in piece.now f.next) }
    ensures out_after { out.new ≡ laid_of out.old f.len (answers_in (fed_of f).session (line_in piece.now f.next)) }
{
    let e = lines::line_end(piece, f.next);
    if (f.text.len == 0) & (e < piece.len()) {
        let event = lines::event_of(&piece[f.next..e]);
        return told_on(f, e + 1, event, out);
    }
    cut_line(f, piece, out)
}

// A piece from a place on, up to its end or until an answer might find no room in the buffer.
pub fn feed(s: Session, piece: &[u8], at: usize, out: &mut [u8]) -> Fed
    ensures value { result ≡ fed_by s at (bytes_read s piece.now at out.old) }
    ensures out_after { out.new ≡ answered (answers_in s (bytes_read s piece.now at out.old)) out.old }
    ensures len_in_bounds { result.len ≤ length out.new }
{
    let mut f = Taken {
        device: Vetted::of(s.device),
        text: s.text,
        next: at,
        len: 0,
    };
    // Stays: a turn goes on by a line, however long, and ends where an answer might find no room.
    while (f.next < piece.len()) & (f.len + texts::ROOM <= out.len()) {
        f = take_line(f, piece, out);
    }
    Fed {
        session: Session {
            device: f.device.device(),
            text: f.text,
        },
        next: f.next,
        len: f.len,
    }
}

// At the end of the input: a last line with no line feed.
pub fn finish(s: Session, out: &mut [u8]) -> Told
    ensures value { result ≡ finished_by s out.old }
    ensures out_after { out.new ≡ laid_of out.old 0 (answers_last s) }
    ensures len_in_bounds { result.len ≤ length out.new }
{
    if s.text.len == 0 {
        return Told {
            device: s.device,
            len: 0,
        };
    }
    let o = chip::event(s.device, lines::event_of_line(s.text));
    Told {
        device: o.device,
        len: texts::write_answer(o.answer, out, 0),
    }
}
