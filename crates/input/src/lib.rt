// The lines of an input one after the other, through a lent buffer.
#![tactic(auto)]

ghost use Rattle.std.specs.Prelude.{◌≡◌, IsSome};
ghost use Rattle.input.specs.Input.{unread, handed as handed_of, line_next, line_last};

use lines::Cut;
use std::io::Read;
use texts::Text;

// What is kept of a line that has not ended, and which bytes of the buffer are still to come: from one place to another.
// Stays: places in the caller's buffer, which is read into again; a slice of it cannot be kept meanwhile.
#[derive(Clone, Copy)]
pub struct Reader {
    pub text: Text,
    pub at: usize,
    pub end: usize,
}

// A line, or none at the end of the input, and how to go on.
#[derive(Clone, Copy)]
pub struct Next {
    pub reader: Reader,
    pub line: Option<Text>,
}

// Before the first byte.
pub fn start() -> Reader
    ensures { result ≡ unread }
{
    Reader {
        text: Text::new(),
        at: 0,
        end: 0,
    }
}

// At the end of the input.
fn last(t: Text) -> Next
    ensures { result ≡ line_last t }
{
    Next {
        reader: start(),
        line: if t.len == 0 { None } else { Some(t) },
    }
}

#[tactic(auto, unfolding(crate::specs::Input::handed))]
fn handed(r: Reader, c: Cut) -> Next
    ensures { result ≡ handed_of r c }
{
    if c.whole {
        return Next {
            reader: Reader {
                text: Text::new(),
                at: c.next,
                ..r
            },
            line: Some(c.text),
        };
    }
    Next {
        reader: Reader { text: c.text, ..r },
        line: None,
    }
}

// The next line among the bytes that were read.
#[tactic(auto, unfolding(crate::specs::Input::line_next))]
fn cut(r: Reader, buf: &[u8]) -> Next
    ensures { result ≡ line_next r buf.now }
{
    match buf.get(..r.end) {
        Some(read) => handed(r, lines::cut_from(r.text, read, r.at)),
        None => Next {
            reader: r,
            line: None,
        },
    }
}

// The rest of a line that has begun. A proved loop has to end, and nothing says that a line does: the turns are counted, up to a
// number that no run reaches.
fn read_on<R: Read>(t: Text, input: &mut R, buf: &mut [u8]) -> Next {
    let mut text = t;
    for _ in 0..u64::MAX {
        let end = streams::read(input, buf);
        if end == 0 {
            return last(text);
        }
        let n = cut(Reader { text, at: 0, end }, buf);
        if n.line.is_some() {
            return n;
        }
        text = n.reader.text;
    }
    last(text)
}

// The next line of an input: where its end was read already, that line, and nothing more is read.
pub fn next_line<R: Read>(r: Reader, input: &mut R, buf: &mut [u8]) -> Next
    ensures { IsSome (line_next r buf.old).line → (result ≡ line_next r buf.old) × (buf.new ≡ buf.old) × (input.new ≡ input.old) }
{
    let n = cut(r, buf);
    if n.line.is_some() {
        return n;
    }
    read_on(n.reader.text, input, buf)
}
