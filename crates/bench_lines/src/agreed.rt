// A line that agrees, at once: straight from the buffer that was read, byte by byte.
ghost use Rattle.std.specs.Prelude.{IfSome, [], ◌∷◌, ◌≡◌, ◌+◌, ◌/◌, ◌≤◌, ◌<◌, length};
ghost use Rattle.texts.specs.Answers.{glyph_of, decimal_text};
ghost use Rattle.bench_lines.specs.Agreed.{agreed_to};
ghost use Rattle.bench_lines.specs.Walk.{bit_byte, MeetsIf, MetFirst, Met, MetIf, Ended, counts_of, tail_of, Agrees};

use crate::comparing::compare;
use rules::Answer;
use texts::glyph;

// Whether a number is below ten, and a byte is its digit, or `-`.
fn is_count(x: u8, n: u32) -> bool
    ensures { MeetsIf result (decimal_text n) (x ∷ []) }
{
    if 9 < n {
        return false;
    }
    if x == b'0' + n as u8 {
        return true;
    }
    x == b'-'
}

fn bit(f: bool) -> u8
    ensures { result ≡ bit_byte f }
{
    if f {
        return b'1';
    }
    b'0'
}

// The place after the first field of a line, where that is this code, or `-`.
// Stays: the code is a number, as the answer has it (rules::Answer).
fn first(b: &[u8], at: usize, code: u8) -> Option<usize>
    ensures met_first { IfSome result (MetFirst (decimal_text code ∷ []) b.now at) }
    ensures upper_bound { IfSome result (λ r. r ≤ length b.now) }
{
    if b.len() <= at {
        return None;
    }
    if is_count(b[at], code as u32) {
        return Some(at + 1);
    }
    None
}

// Whether there is a space, and a field of one byte.
// Stays: this step and those below each need another number of bytes behind their place, so no one fact of a struct says it for all.
fn has_one(b: &[u8], at: usize, d: u8) -> bool
    requires { at + 2 < length b.now }
    ensures { MetIf result ((d ∷ []) ∷ []) b.now at (at + 2) }
{
    if b[at] != b' ' {
        return false;
    }
    let x = b[at + 1];
    if x == d {
        return true;
    }
    x == b'-'
}

// The same with a number.
fn has_count(b: &[u8], at: usize, n: u32) -> bool
    requires { at + 2 < length b.now }
    ensures { MetIf result (decimal_text n ∷ []) b.now at (at + 2) }
{
    if b[at] != b' ' {
        return false;
    }
    is_count(b[at + 1], n)
}

// The same with two bytes.
fn has_two(b: &[u8], at: usize, g: u8, l: u8) -> bool
    requires { at + 3 < length b.now }
    ensures { MetIf result ((g ∷ l ∷ []) ∷ []) b.now at (at + 3) }
{
    if b[at] != b' ' {
        return false;
    }
    if b[at + 1] != g {
        return false;
    }
    b[at + 2] == l
}

// The place after a space and two hexadecimal digits, or `-`, where they are there.
fn pair(b: &[u8], at: usize, v: u8) -> Option<usize>
    requires { at ≤ length b.now }
    ensures met { IfSome result (Met ((glyph_of (v / 16) ∷ glyph_of v ∷ []) ∷ []) b.now at) }
    ensures upper_bound { IfSome result (λ r. r ≤ length b.now) }
{
    if b.len() - at < 4 {
        return None;
    }
    if has_two(b, at, glyph(v / 16), glyph(v)) {
        return Some(at + 3);
    }
    if has_one(b, at, b'-') {
        return Some(at + 2);
    }
    None
}

// The place after six numbers; where one is another, or there is none, the place before it.
fn counts(b: &[u8], at: usize, t: [u32; 3], l: [u32; 3]) -> usize
    requires { at + 12 < length b.now }
    ensures { Ended (counts_of t l) b.now at result }
{
    let mut i = at;
    for n in [t[0], t[1], t[2], l[0], l[1], l[2]] {
        if !has_count(b, i, n) {
            return i;
        }
        i += 2;
    }
    i
}

// The same from C on.
fn tail(a: Answer, b: &[u8], at: usize) -> usize
    requires { at ≤ length b.now }
    ensures { Ended (tail_of a) b.now at result }
{
    if b.len() - at < 19 {
        return at;
    }
    let mut i = at;
    for d in [glyph(a.c), bit(a.int), bit(a.ieo)] {
        if !has_one(b, i, d) {
            return i;
        }
        i += 2;
    }
    counts(b, i, a.report.terminals, a.report.lost)
}

// The place after all fields, or before the first that is another, or not there.
fn last(a: Answer, b: &[u8], at: usize) -> usize
    ensures { Agrees a b.now at result }
{
    let Some(i) = first(b, at, a.code) else {
        return b.len();
    };
    let Some(j) = pair(b, i, a.value) else {
        return i;
    };
    let Some(k) = pair(b, j, a.a) else {
        return j;
    };
    let Some(m) = pair(b, k, a.b) else {
        return k;
    };
    tail(a, b, m)
}

// By its fields, one by one.
// Stays: the place itself where the line does not agree, by the definition (bench_lines/Agreed.agreed_to).
fn plain(a: Answer, boards: &[u8], at: usize) -> usize
    ensures { result ≡ agreed_to a boards.now at }
{
    let e = lines::line_end(boards, at);
    if e < boards.len() {
        if let Some(c) = compare(a, &boards[at..e]) {
            if c.agrees {
                return e + 1;
            }
        }
    }
    at
}

// The place after a line that begins at a place of a buffer, ends in it, and agrees with the answer; else that place itself.
// Stays: the place itself where the line does not agree, by the definition (bench_lines/Agreed.agreed_to).
pub fn agreed_to(a: Answer, boards: &[u8], at: usize) -> usize
    ensures { result ≡ agreed_to a boards.now at }
{
    let e = last(a, boards, at);
    if e < boards.len() {
        if boards[e] == b'\n' {
            return e + 1;
        }
    }
    plain(a, boards, at)
}
