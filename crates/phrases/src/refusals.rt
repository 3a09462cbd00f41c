// What is said of a file after its name.
ghost use Rattle.std.specs.Prelude.{◌≡◌};
ghost use Rattle.texts.specs.Kept.{no_text, typed};
ghost use Rattle.phrases.specs.Refusals.{side as side_of, not_whole, refusal, attempt as attempt_of, reason as reason_of, trouble};

use texts::Text;

#[tactic(auto, unfolding(crate::specs::Refusals::side, texts::specs::Spelled::spelled))]
fn side(whole: u32, n: usize) -> Text
    ensures { result ≡ typed no_text (side_of whole n) }
{
    let t = Text::new();
    if (whole as usize) < n {
        return t.word(b": refused 7 (over ");
    }
    t.word(b": refused 7 (under ")
}

#[tactic(auto, using(texts::proofs::Typing::typed_append), unfolding(crate::specs::Refusals::not_whole, texts::specs::Spelled::spelled))]
fn not_whole(whole: u32, n: usize) -> Text
    ensures { result ≡ typed no_text (not_whole whole n) }
{
    let t = side(whole, n).decimal(whole);
    t.word(b" bytes)\n")
}

// Why an image of n bytes that should have so many is refused, by the code of the refusal.
// Stays: a code is a number in paper 01, and `image::Restored` hands it on as one.
#[tactic(auto, unfolding(crate::specs::Refusals::refusal, texts::specs::Spelled::spelled))]
pub fn refusal_line(code: u8, whole: u32, n: usize) -> Text
    ensures { result ≡ typed no_text (refusal code whole n) }
{
    match code {
        7 => not_whole(whole, n),
        8 => Text::new().word(b": refused 8 (contents differ)\n"),
        _ => Text::new().word(b": refused 9 (bodies unsound)\n"),
    }
}

// Stays: a bool that says which of two words stands in the line.
#[tactic(auto, unfolding(crate::specs::Refusals::attempt, texts::specs::Spelled::spelled))]
fn attempt(writing: bool) -> Text
    ensures { result ≡ typed no_text (attempt_of writing) }
{
    let t = Text::new();
    if writing {
        return t.word(b": cannot be written: ");
    }
    t.word(b": cannot be read: ")
}

// Why the system refuses a call on a file, as far as the reason has words of its own.
#[derive(Clone, Copy, Debug, PartialEq, Eq)]
pub enum Trouble {
    NoEntry,
    NotPermitted,
    Folder,
    NotInFolder,
    NoSpace,
    Other,
}

#[tactic(auto, unfolding(crate::specs::Refusals::reason, texts::specs::Spelled::spelled))]
fn reason(t: Text, why: Trouble) -> Text
    ensures { result ≡ typed t (reason_of why) }
{
    match why {
        Trouble::NoEntry => t.word(b"no such file or folder\n"),
        Trouble::NotPermitted => t.word(b"not permitted\n"),
        Trouble::Folder => t.word(b"a folder\n"),
        Trouble::NotInFolder => t.word(b"not in a folder\n"),
        Trouble::NoSpace => t.word(b"no space\n"),
        Trouble::Other => t.word(b"the system refuses\n"),
    }
}

// Why a file cannot be read or written.
// Stays: a bool that says which of two words stands in the line.
#[tactic(auto, using(texts::proofs::Typing::typed_append), unfolding(texts::specs::Kept::typed, crate::specs::Refusals::trouble))]
pub fn trouble_line(writing: bool, why: Trouble) -> Text
    ensures { result ≡ typed no_text (trouble writing why) }
{
    reason(attempt(writing), why)
}
