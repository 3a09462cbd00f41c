// Lines from an input that comes in pieces.
ghost use Rattle.std.specs.Prelude.{◌≡◌, drop, ◌+◌, ◌==◌, position};
ghost use Rattle.texts.specs.Answers.{line_feed};
ghost use Rattle.lines.specs.Pieces.{feed_at, cut_from};

use crate::Cut;
use texts::Text;

fn first_feed(s: &[u8]) -> Option<usize>
    ensures { result ≡ position (λ b. b == line_feed) s.now }
{
    s.iter().position(|b| *b == b'\n')
}

// What there is of a piece from a place on.
fn rest(piece: &[u8], at: usize) -> &[u8]
    ensures { result.now ≡ drop at piece.now }
{
    piece.get(at..).unwrap_or(&[])
}

// From a place in a piece to the end of a line, which may have begun in a piece before.
pub fn cut_from(t: Text, piece: &[u8], at: usize) -> Cut
    ensures { result ≡ cut_from t at (drop at piece.now) }
{
    let rest = rest(piece, at);
    match first_feed(rest) {
        Some(n) => Cut {
            text: t.word(&rest[..n]),
            next: at + n + 1,
            whole: true,
        },
        None => Cut {
            text: t.word(rest),
            next: at + rest.len(),
            whole: false,
        },
    }
}

// Where the line feed is that ends a line, from a place in a piece on; the end of the piece where there is none.
// Stays: the end of the piece where no line feed is, as the definition counts (lines/Pieces.feed_at); callers compare with the piece's length.
pub fn line_end(piece: &[u8], at: usize) -> usize
    ensures { result ≡ at + feed_at (drop at piece.now) }
{
    let rest = rest(piece, at);
    at + first_feed(rest).unwrap_or(rest.len())
}
