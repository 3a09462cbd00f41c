// A byte's bits; labels, and names with their bits; what stands in a column of twelve bytes.
ghost use Rattle.std.specs.Prelude.{◌≡◌, cond, [], ◌<◌, get_or};
ghost use Rattle.basics.specs.Byte.{bit as bit_of};
ghost use Rattle.texts.specs.Kept.{no_text, typed};
ghost use Rattle.words.specs.Cells.{bit_cell, yes_cell, byte_cell, digit_or_space, number_cell};
ghost use Rattle.words.specs.Shown.{named as named_of};

use texts::{Text, glyph};

// Dk of a byte.
pub(crate) fn bit(x: u8, k: u8) -> bool
    requires { k < 8 }
    ensures { result ≡ bit_of x k }
{
    (x >> k) % 2 == 1
}

// The label at a row's place in a table, on a new line; beyond the table none.
#[tactic(auto, unfolding(texts::specs::Kept::typed))]
pub fn label(rows: &[[u8; 16]], row: usize) -> Text
    ensures { result ≡ typed no_text (get_or rows.now row []) }
{
    match rows.get(row) {
        Some(w) => Text::new().word(w),
        None => Text::new(),
    }
}

// A name and its bit.
#[tactic(auto, using(texts::proofs::Typing::typed_append), unfolding(texts::specs::Kept::typed, crate::specs::Shown::named))]
pub(crate) fn named(t: Text, w: &[u8], f: bool) -> Text
    ensures { result ≡ typed t (named_of w.now f) }
{
    t.word(w).push(if f { b'1' } else { b'0' })
}

// One of two words.
pub fn either(t: Text, f: bool, yes: &[u8; 12], no: &[u8; 12]) -> Text
    ensures { result ≡ typed t (cond f yes.now no.now) }
{
    if f {
        return t.word(yes);
    }
    t.word(no)
}

#[tactic(auto, unfolding(crate::specs::Cells::bit_cell, texts::specs::Spelled::spelled))]
pub fn bit_cell(t: Text, f: bool) -> Text
    ensures { result ≡ typed t (bit_cell f) }
{
    either(t, f, b"           1", b"           0")
}

#[tactic(auto, unfolding(crate::specs::Cells::yes_cell, texts::specs::Spelled::spelled))]
pub fn yes_cell(t: Text, f: bool) -> Text
    ensures { result ≡ typed t (yes_cell f) }
{
    either(t, f, b"         yes", b"          no")
}

#[tactic(auto, unfolding(texts::specs::Kept::typed, crate::specs::Cells::byte_cell, texts::specs::Spelled::spelled))]
pub(crate) fn byte_cell(t: Text, n: u8) -> Text
    ensures { result ≡ typed t (byte_cell n) }
{
    t.word(b"          ").push(glyph(n / 16)).push(glyph(n))
}

// The digit at the place of a power of ten, or a space.
// Stays: a power of ten is above 0; three functions in two crates ask it, and each is called with numbers that stand there.
#[tactic(auto, unfolding(crate::specs::Cells::digit_or_space))]
fn digit(p: u32, n: u32) -> u8
    requires { 0 < p }
    ensures { result ≡ digit_or_space p n }
{
    if n < p {
        return b' ';
    }
    b'0' + (n / p % 10) as u8
}

#[tactic(auto, unfolding(texts::specs::Kept::typed, crate::specs::Cells::number_cell, texts::specs::Spelled::spelled))]
pub fn number_cell(t: Text, n: u32) -> Text
    ensures { result ≡ typed t (number_cell n) }
{
    t.word(b"       ")
        .push(digit(10000, n))
        .push(digit(1000, n))
        .push(digit(100, n))
        .push(digit(10, n))
        .push(b'0' + (n % 10) as u8)
}
