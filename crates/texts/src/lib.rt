// The bytes of a line: as they are kept, as an answer has them, and laid into a buffer.
#![tactic(auto)]

ghost use Rattle.std.specs.Prelude.{◌≡◌, ◌<◌};
ghost use Rattle.texts.specs.Kept.{no_text, pushed, typed};
ghost use Rattle.texts.specs.Answers.{hex_text, nibble_text, flag_text, place_text, decimal_text, count_text, counts_text, levels_text};

mod answers;
mod written;

pub use answers::{answer_text, glyph, write_answer};
use rules::Answer;

// The room of a text: any answer fits, and so does any line that paper 01 lets a trace have.
pub const ROOM: usize = 96;

// The bytes of a line, its first `len`; a `len` above ROOM says that they have no room.
// Stays: a buffer with its length, since a push that finds no room is kept as such (texts/Kept.pushed), where a library's list would refuse it.
#[derive(Clone, Copy)]
pub struct Text {
    pub bytes: [u8; ROOM],
    pub len: usize,
}

// Each but `new` answers the text with more bytes after those that it has.
impl Text {
    // No byte yet.
    #[tactic(auto, unfolding(crate::specs::Kept::no_text))]
    pub fn new() -> Text
        ensures { result ≡ no_text }
    {
        Text {
            bytes: [0; ROOM],
            len: 0,
        }
    }

    // One byte more, where the text stands.
    #[tactic(auto, unfolding(crate::specs::Kept::pushed))]
    fn put(&mut self, b: u8)
        ensures { self.new ≡ pushed self.old b }
    {
        if self.len < ROOM {
            self.bytes[self.len] = b;
            self.len += 1;
        } else {
            self.len = ROOM + 1;
        }
    }

    // One byte more.
    pub fn push(self, b: u8) -> Text
        ensures { result ≡ pushed self b }
    {
        let mut t = self;
        t.put(b);
        t
    }

    // The bytes of a word.
    #[tactic(auto, unfolding(crate::specs::Kept::typed), using(std::proofs::lemmas::List::at_drop_more, std::proofs::lemmas::List::at_drop_all))]
    pub fn word(self, w: &[u8]) -> Text
        ensures { result ≡ typed self w.now }
    {
        let mut t = self;
        for b in w {
            t.put(*b);
        }
        t
    }

    // A space and a byte in two digits.
    #[tactic(auto, unfolding(crate::specs::Kept::typed, crate::specs::Answers::hex_text))]
    pub fn hex(self, n: u8) -> Text
        ensures { result ≡ typed self (hex_text n) }
    {
        self.push(b' ').push(glyph(n / 16)).push(glyph(n))
    }

    // A space and one digit.
    #[tactic(auto, unfolding(crate::specs::Kept::typed, crate::specs::Answers::nibble_text))]
    pub fn nibble(self, n: u8) -> Text
        ensures { result ≡ typed self (nibble_text n) }
    {
        self.push(b' ').push(glyph(n))
    }

    // A space, and 1 or 0.
    #[tactic(auto, unfolding(crate::specs::Kept::typed, crate::specs::Answers::flag_text))]
    pub fn flag(self, f: bool) -> Text
        ensures { result ≡ typed self (flag_text f) }
    {
        self.push(b' ').push(if f { b'1' } else { b'0' })
    }

    // The digit at the place of a power of ten.
    // Stays: a power of ten is above 0; three functions in two crates ask it, and each is called with numbers that stand there.
    #[tactic(auto, unfolding(crate::specs::Kept::typed, crate::specs::Answers::place_text))]
    fn place(self, p: u32, n: u32) -> Text
        requires { 0 < p }
        ensures { result ≡ typed self (place_text p n) }
    {
        if n < p {
            return self;
        }
        self.push(b'0' + (n / p % 10) as u8)
    }

    // A number in decimal.
    #[tactic(auto, unfolding(crate::specs::Kept::typed, crate::specs::Answers::decimal_text), using(crate::proofs::Typing::typed_append))]
    pub fn decimal(self, n: u32) -> Text
        ensures { result ≡ typed self (decimal_text n) }
    {
        self.place(1000000000, n)
            .place(100000000, n)
            .place(10000000, n)
            .place(1000000, n)
            .place(100000, n)
            .place(10000, n)
            .place(1000, n)
            .place(100, n)
            .place(10, n)
            .push(b'0' + (n % 10) as u8)
    }

    // A space and a number in decimal.
    #[tactic(auto, unfolding(crate::specs::Kept::typed, crate::specs::Answers::count_text))]
    pub fn count(self, n: u32) -> Text
        ensures { result ≡ typed self (count_text n) }
    {
        self.push(b' ').decimal(n)
    }

    #[tactic(auto, unfolding(crate::specs::Answers::counts_text), using(crate::proofs::Typing::typed_append))]
    fn counts(self, n: [u32; 3]) -> Text
        ensures { result ≡ typed self (counts_text n) }
    {
        self.count(n[0]).count(n[1]).count(n[2])
    }

    // The pins, INT, IEO and the report of an answer: its terminals, and then its lost.
    #[tactic(auto, unfolding(crate::specs::Answers::levels_text, crate::specs::Answers::report_text), using(crate::proofs::Typing::typed_append))]
    pub fn levels(self, a: Answer) -> Text
        ensures { result ≡ typed self (levels_text a) }
    {
        self.hex(a.a)
            .hex(a.b)
            .nibble(a.c)
            .flag(a.int)
            .flag(a.ieo)
            .counts(a.report.terminals)
            .counts(a.report.lost)
    }
}
