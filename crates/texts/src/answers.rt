// The line of an answer.
ghost use Rattle.std.specs.Prelude.{◌≡◌, cond, ◌+◌, length};
ghost use Rattle.texts.specs.Kept.{no_text, typed};
ghost use Rattle.texts.specs.Answers.{glyph_of, answer_text};
ghost use Rattle.basics.specs.Buffer.{fits, laid_of};

use crate::{ROOM, Text, written};
use rules::Answer;

// The capital hexadecimal digit of the lower four bits.
#[tactic(auto, unfolding(crate::specs::Answers::glyph_of))]
pub fn glyph(n: u8) -> u8
    ensures { result ≡ glyph_of n }
{
    let d = n % 16;
    if d < 10 {
        return b'0' + d;
    }
    b'A' + (d - 10)
}

// The line of an answer, with its line feed.
pub fn answer_text(a: Answer) -> Text
    ensures { result ≡ typed no_text (answer_text a) }
{
    let mut bytes = [0; ROOM];
    let n = written::answer(a, &mut bytes, 0);
    Text { bytes, len: n }
}

// The same, laid into a buffer that may have no room for it.
fn lay_answer(a: Answer, out: &mut [u8], at: usize) -> usize
    ensures { (out.new ≡ laid_of out.old at (answer_text a)) × (result ≡ cond (fits out.old at (answer_text a)) (at + length (answer_text a)) at) }
{
    let mut bytes = [0; ROOM];
    let n = written::answer(a, &mut bytes, 0);
    basics::lay(out, at, &bytes[..n])
}

// Lays the line of an answer into a buffer from a place, and answers the place after it; where it does not fit, nothing. Where any answer
// fits, it is written there at once.
pub fn write_answer(a: Answer, out: &mut [u8], at: usize) -> usize
    ensures { (out.new ≡ laid_of out.old at (answer_text a)) × (result ≡ cond (fits out.old at (answer_text a)) (at + length (answer_text a)) at) }
{
    if out.len() < ROOM {
        return lay_answer(a, out, at);
    }
    if out.len() - ROOM < at {
        return lay_answer(a, out, at);
    }
    written::answer(a, out, at)
}
