// The bytes of an answer at their places, as hosts/wolfscarer.h names them.
ghost use Rattle.std.specs.Prelude.{◌≡◌};
ghost use Rattle.host.specs.Bytes.{count_bytes, reply_bytes, ctc_bytes, line_bytes};

use ctc_rules::CtcAnswer;
use rules::{Answer, Lines};

// How long the answers are: of a Z8036 and a Z8536, of a CTC, and of the lines.
pub(crate) const ANSWER: usize = 31;

pub(crate) const CTC: usize = 21;

pub(crate) const LINES: usize = 3;

// A count, high byte first.
#[tactic(auto, unfolding(crate::specs::Bytes::count_bytes))]
fn count(n: u32) -> [u8; 4]
    ensures { result ≡ count_bytes n }
{
    n.to_be_bytes()
}

#[tactic(auto, unfolding(crate::specs::Bytes::reply_bytes))]
pub(crate) fn answer(a: Answer) -> [u8; ANSWER]
    ensures { result ≡ reply_bytes a }
{
    let front = [a.code, a.value, a.a, a.b, a.c, a.int as u8, a.ieo as u8];
    let mut b = [0; ANSWER];
    basics::lay(&mut b, 0, &front);
    basics::lay(&mut b, 7, &count(a.report.terminals[0]));
    basics::lay(&mut b, 11, &count(a.report.terminals[1]));
    basics::lay(&mut b, 15, &count(a.report.terminals[2]));
    basics::lay(&mut b, 19, &count(a.report.lost[0]));
    basics::lay(&mut b, 23, &count(a.report.lost[1]));
    basics::lay(&mut b, 27, &count(a.report.lost[2]));
    b
}

#[tactic(auto, unfolding(crate::specs::Bytes::ctc_bytes))]
pub(crate) fn ctc(a: CtcAnswer) -> [u8; CTC]
    ensures { result ≡ ctc_bytes a }
{
    let front = [a.code, a.value, a.levels, a.int as u8, a.ieo as u8];
    let mut b = [0; CTC];
    basics::lay(&mut b, 0, &front);
    basics::lay(&mut b, 5, &count(a.zeros[0]));
    basics::lay(&mut b, 9, &count(a.zeros[1]));
    basics::lay(&mut b, 13, &count(a.zeros[2]));
    basics::lay(&mut b, 17, &count(a.zeros[3]));
    b
}

#[tactic(auto, unfolding(crate::specs::Bytes::line_bytes))]
pub(crate) fn lines(l: Lines) -> [u8; LINES]
    ensures { result ≡ line_bytes l }
{
    [l.int as u8, l.ieo as u8, l.place]
}
