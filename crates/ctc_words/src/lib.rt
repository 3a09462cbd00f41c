// A CTC in words, line by line.
#![tactic(auto)]

mod cells;

ghost use Rattle.std.specs.Prelude.{◌≡◌};
ghost use Rattle.texts.specs.Kept.{no_text, typed};
ghost use Rattle.ctc_words.specs.Shown.{channels_line, device_line, shown_ctc};

use ctc_rules::Ctc;
use texts::{Text, glyph};

pub const LINES: usize = 14;

// A fact of the four channels.
#[tactic(auto, using(texts::proofs::Typing::typed_append), unfolding(texts::specs::Kept::typed, crate::specs::Shown::channels_line, texts::specs::Spelled::spelled, words::proofs::Columns::columns))]
fn channels_line(d: Ctc, row: usize) -> Text
    ensures { result ≡ typed no_text (channels_line d row) }
{
    let mut t = words::label(&cells::LABELS, row);
    for c in &d.channels {
        t = cells::channel(t, *c, row);
    }
    t.push(b'\n')
}

// What the device has beside its channels.
#[tactic(auto, unfolding(texts::specs::Kept::typed, crate::specs::Shown::device_line, texts::specs::Spelled::spelled))]
fn device_line(d: Ctc) -> Text
    ensures { result ≡ typed no_text (device_line d) }
{
    let t = Text::new().word(b"device          vector ");
    let vector = t.push(glyph(d.vector / 16)).push(glyph(d.vector));
    let levels = vector.word(b"  levels ").push(glyph(d.levels));
    let iei = levels.word(b"  IEI ").push(glyph(basics::weight(d.iei, 1)));
    iei.push(b'\n')
}

// Line n of a device, with its line feed.
// Stays: what is shown goes by a number, as the definition does (ctc_words/Shown.shown_ctc), and whoever prints counts it up.
#[tactic(auto, unfolding(crate::specs::Shown::shown_ctc, texts::specs::Spelled::spelled))]
pub fn line(d: Ctc, n: usize) -> Text
    ensures { result ≡ typed no_text (shown_ctc d n) }
{
    match n {
        0 => Text::new().word(
            b"channel                    0           1           2           3\n",
        ),
        1..13 => channels_line(d, n - 1),
        _ => device_line(d),
    }
}
