// What a line says: an event, or nothing where it is unreadable.
ghost use Rattle.std.specs.Prelude.{◌≡◌, ◌+◌, ◌<◌, length, get_or};
ghost use Rattle.lines.specs.Lines.{below, said as said_of, digit_of, number_of, clocks_in, clocks_of, line_of, says_of, event_in};

use rules::Event;
use texts::Text;

// The most bytes of a line.
pub const MOST: usize = 80;

// What an unreadable line is answered as: a kind above 6.
// Stays: the number is the one that the definition gives to an unreadable line (lines/Lines.event_in).
pub const UNREADABLE: Event = Event {
    kind: 7,
    a: 0,
    b: 0,
    c: 0,
};

// Stays: the kind is a number, as an event's is (rules::Event), and so are the three.
fn said(kind: u32, a: u8, b: u8, c: u8) -> Option<Event>
    ensures { result ≡ said_of kind a b c }
{
    Some(Event {
        kind,
        a: a.into(),
        b: b.into(),
        c: c.into(),
    })
}

// The value of a digit, `0` to `9` and `A` to `F`.
#[tactic(auto, unfolding(crate::specs::Lines::digit_of))]
pub fn digit(b: u8) -> Option<u8>
    ensures { result ≡ below 16 (digit_of b) }
{
    match b {
        b'0'..=b'9' => Some(b - b'0'),
        b'A'..=b'F' => Some(10 + (b - b'A')),
        _ => None,
    }
}

// The number of a space and two digits, from a place on.
#[tactic(auto, unfolding(crate::specs::Lines::number_of))]
fn number(s: &[u8], at: usize) -> Option<u8>
    requires { at + 2 < length s.now }
    ensures { result ≡ below 256 (number_of (get_or s.now at 0) (get_or s.now (at + 1) 0) (get_or s.now (at + 2) 0)) }
{
    if s[at] != b' ' {
        return None;
    }
    Some(16 * digit(s[at + 1])? + digit(s[at + 2])?)
}

// The number of decimal digits and no other bytes, where it has 32 bits.
pub fn decimal(s: &[u8]) -> Option<u32>
    ensures { result ≡ below 4294967296 (clocks_in s.now) }
{
    let mut n: u32 = 0;
    for b in s {
        let d = digit(*b)?;
        if 9 < d {
            return None;
        }
        n = n.checked_mul(10)?.checked_add(d.into())?;
    }
    Some(n)
}

// What follows the letter T: a space and a number with no leading zeros.
fn clocks(s: &[u8]) -> Option<Event>
    ensures { result ≡ clocks_of s.now }
{
    let [b' ', first, ..] = s else {
        return None;
    };
    if (*first == b'0') & (2 < s.len()) {
        return None;
    }
    Some(Event {
        kind: Event::T,
        a: decimal(&s[1..])?,
        b: 0,
        c: 0,
    })
}

// What a line of these bytes says, its line feed not among them: by its letter, and by how many bytes it has.
fn meaning(s: &[u8]) -> Option<Event>
    ensures { result ≡ line_of s.now }
{
    let n = s.len();
    if (n == 0) | (MOST < n) {
        return None;
    }
    match (s[0], n) {
        (b'X', 1) => said(Event::X, 0, 0, 0),
        (b'W', 7) => said(Event::W, number(s, 1)?, number(s, 4)?, 0),
        (b'R', 4) => said(Event::R, number(s, 1)?, 0, 0),
        (b'P', 10) => said(Event::P, number(s, 1)?, number(s, 4)?, number(s, 7)?),
        (b'T', _) => clocks(&s[1..]),
        (b'K', 1) => said(Event::K, 0, 0, 0),
        (b'E', 4) => said(Event::E, number(s, 1)?, 0, 0),
        _ => None,
    }
}

// What a line says that is kept; one that found no room is too long as well.
#[tactic(auto, unfolding(crate::specs::Lines::says_of, texts::specs::Kept::bytes_of, texts::specs::Kept::kept_len, crate::specs::Lines::line_of, crate::specs::Lines::words_of))]
fn says(t: Text) -> Option<Event>
    ensures { result ≡ says_of t }
{
    // Stays: None where the line had no room; a method for it would be a public call more, whose clause is as long.
    meaning(t.bytes.get(..t.len)?)
}

// The event of a line of these bytes.
pub fn event_of(s: &[u8]) -> Event
    ensures { result ≡ event_in (line_of s.now) }
{
    meaning(s).unwrap_or(UNREADABLE)
}

// The event of a line that is kept.
pub fn event_of_line(t: Text) -> Event
    ensures { result ≡ event_in (says_of t) }
{
    says(t).unwrap_or(UNREADABLE)
}
