// The line of an answer, written into a buffer where it belongs.
// Stays: beside the methods of `Text`, since an answer that is made as a text first costs more instructions (docs/COSTS.md, the third part).
ghost use Rattle.std.specs.Prelude.{[], ◌∷◌, ◌+◌, ◌≤◌, ◌<◌, length};
ghost use Rattle.texts.specs.Kept.{text_room};
ghost use Rattle.texts.specs.Answers.{hex_text, nibble_text, flag_text, place_text, decimal_text, count_text, counts_text, report_text, answer_text};
ghost use Rattle.texts.specs.Written.{Wrote};

use crate::answers::glyph;
use rules::{Answer, Report};

// One byte; the place after it.
#[tactic(auto, unfolding(crate::specs::Written::written))]
fn put(out: &mut [u8], at: usize, b: u8) -> usize
    requires { at < length out.old }
    ensures { Wrote 1 out.old at (b ∷ []) out.new result }
{
    out[at] = b;
    at + 1
}

#[tactic(auto, unfolding(crate::specs::Answers::hex_text))]
fn hex(out: &mut [u8], at: usize, n: u8) -> usize
    requires { at + 3 ≤ length out.old }
    ensures { Wrote 3 out.old at (hex_text n) out.new result }
{
    let i = put(out, at, b' ');
    let j = put(out, i, glyph(n / 16));
    put(out, j, glyph(n))
}

#[tactic(auto, unfolding(crate::specs::Answers::nibble_text))]
fn nibble(out: &mut [u8], at: usize, n: u8) -> usize
    requires { at + 2 ≤ length out.old }
    ensures { Wrote 2 out.old at (nibble_text n) out.new result }
{
    let i = put(out, at, b' ');
    put(out, i, glyph(n))
}

#[tactic(auto, unfolding(crate::specs::Answers::flag_text))]
fn flag(out: &mut [u8], at: usize, f: bool) -> usize
    requires { at + 2 ≤ length out.old }
    ensures { Wrote 2 out.old at (flag_text f) out.new result }
{
    let i = put(out, at, b' ');
    if f {
        return put(out, i, b'1');
    }
    put(out, i, b'0')
}

// The digit at the place of a power of ten.
#[tactic(auto, unfolding(crate::specs::Answers::place_text))]
fn place(out: &mut [u8], at: usize, p: u32, n: u32) -> usize
    requires { (0 < p) × (at < length out.old) }
    ensures { Wrote 1 out.old at (place_text p n) out.new result }
{
    if n < p {
        return at;
    }
    put(out, at, b'0' + (n / p % 10) as u8)
}

// A number of any length.
#[tactic(auto, unfolding(crate::specs::Answers::decimal_text))]
fn places(out: &mut [u8], at: usize, n: u32) -> usize
    requires { at + 10 ≤ length out.old }
    ensures { Wrote 10 out.old at (decimal_text n) out.new result }
{
    let i9 = place(out, at, 1000000000, n);
    let i8 = place(out, i9, 100000000, n);
    let i7 = place(out, i8, 10000000, n);
    let i6 = place(out, i7, 1000000, n);
    let i5 = place(out, i6, 100000, n);
    let i4 = place(out, i5, 10000, n);
    let i3 = place(out, i4, 1000, n);
    let i2 = place(out, i3, 100, n);
    let i1 = place(out, i2, 10, n);
    put(out, i1, b'0' + (n % 10) as u8)
}

// A number; nearly all have one digit.
fn decimal(out: &mut [u8], at: usize, n: u32) -> usize
    requires { at + 10 ≤ length out.old }
    ensures { Wrote 10 out.old at (decimal_text n) out.new result }
{
    if n < 10 {
        return put(out, at, b'0' + n as u8);
    }
    places(out, at, n)
}

#[tactic(auto, unfolding(crate::specs::Answers::count_text))]
fn count(out: &mut [u8], at: usize, n: u32) -> usize
    requires { at + 11 ≤ length out.old }
    ensures { Wrote 11 out.old at (count_text n) out.new result }
{
    let i = put(out, at, b' ');
    decimal(out, i, n)
}

#[tactic(auto, unfolding(crate::specs::Answers::counts_text))]
fn counts(out: &mut [u8], at: usize, n: [u32; 3]) -> usize
    requires { at + 33 ≤ length out.old }
    ensures { Wrote 33 out.old at (counts_text n) out.new result }
{
    let i = count(out, at, n[0]);
    let j = count(out, i, n[1]);
    count(out, j, n[2])
}

// The terminals, and then the lost.
#[tactic(auto, unfolding(crate::specs::Answers::report_text))]
fn report(out: &mut [u8], at: usize, r: Report) -> usize
    requires { at + 66 ≤ length out.old }
    ensures { Wrote 66 out.old at (report_text r) out.new result }
{
    let i = counts(out, at, r.terminals);
    counts(out, i, r.lost)
}

// The line of an answer, with its line feed.
#[tactic(auto, unfolding(crate::specs::Answers::answer_text))]
pub(crate) fn answer(a: Answer, out: &mut [u8], at: usize) -> usize
    requires { at + text_room ≤ length out.old }
    ensures { Wrote 92 out.old at (answer_text a) out.new result }
{
    let i = decimal(out, at, a.code as u32);
    let j = hex(out, i, a.value);
    let k = hex(out, j, a.a);
    let l = hex(out, k, a.b);
    let m = nibble(out, l, a.c);
    let n = flag(out, m, a.int);
    let o = flag(out, n, a.ieo);
    let p = report(out, o, a.report);
    put(out, p, b'\n')
}
