// Bytes of bits, words of bytes, and bytes laid into a buffer.
#![tactic(auto)]

mod place;

ghost use Rattle.std.specs.Prelude.{◌≡◌, cond, ◌+◌, ◌*◌, ◌≤◌, length, get_or};
ghost use Rattle.basics.specs.Byte.{byte_in, with_byte};
ghost use Rattle.basics.specs.Buffer.{fits, laid_of};

pub use place::Place;

// A bit's weight, or 0.
pub fn weight(on: bool, w: u8) -> u8
    ensures { (result ≡ cond on w 0) × (result ≤ w) }
{
    if on { w } else { 0 }
}

// The high or the low byte of a word.
#[tactic(auto, unfolding(crate::specs::Byte::byte_in))]
pub fn byte_in(high: bool, n: u16) -> u8
    ensures { result ≡ byte_in high n }
{
    if high {
        return (n / 256) as u8;
    }
    (n % 256) as u8
}

// A word with its high or its low byte written.
#[tactic(auto, unfolding(crate::specs::Byte::with_byte))]
pub fn with_byte(high: bool, n: u16, b: u8) -> u16
    ensures { result ≡ with_byte high n b }
{
    if high {
        return (b as u16) * 256 + n % 256;
    }
    n / 256 * 256 + (b as u16)
}

// The byte at a place, or 0 past the end.
pub fn byte_at(b: &[u8], i: usize) -> u8
    ensures { result ≡ get_or b.now i 0 }
{
    b.get(i).copied().unwrap_or(0)
}

// The word of the bytes at two places.
pub fn word_at(b: &[u8], high: usize, low: usize) -> u16
    ensures { result ≡ get_or b.now high 0 * 256 + get_or b.now low 0 }
{
    (byte_at(b, high) as u16) * 256 + (byte_at(b, low) as u16)
}

// Lays bytes into a buffer from a place, and answers the place after them; where they do not fit, nothing.
pub fn lay(buf: &mut [u8], at: usize, src: &[u8]) -> usize
    ensures { (buf.new ≡ laid_of buf.old at src.now) × (result ≡ cond (fits buf.old at src.now) (at + length src.now) at) }
{
    let n = src.len();
    if buf.len() < n {
        return at;
    }
    if buf.len() - n < at {
        return at;
    }
    buf[at..at + n].copy_from_slice(src);
    at + n
}
