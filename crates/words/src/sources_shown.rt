// The sources, a fact a line: its label, and a column for each source in the order of priority.
ghost use Rattle.std.specs.Prelude.{◌≡◌};
ghost use Rattle.texts.specs.Kept.{no_text, typed};
ghost use Rattle.words.specs.Shown.{source_cell, source_line};

use crate::cells::{bit_cell, label};
use rules::{Device, Source};
use texts::Text;

// How many facts a source has.
pub const ROWS: usize = 5;

// Stays: by a row's number, as the definitions go (words/Shown.source_labels, words/Shown.source_cell); an enum would list each fact a third time.
const LABELS: [[u8; 16]; ROWS] = [
    *b"IE              ",
    *b"IP              ",
    *b"IUS             ",
    *b"ERR             ",
    *b"hidden error    ",
];

#[tactic(auto, unfolding(crate::specs::Shown::source_cell))]
fn source_cell(t: Text, s: Source, row: usize) -> Text
    ensures { result ≡ typed t (source_cell s row) }
{
    let flags = [s.ie, s.ip, s.ius, s.err, s.hidden];
    bit_cell(t, flags.get(row).copied().unwrap_or(false))
}

// Stays: its twins fold other parts by other cells; a closure for the cell would carry each cell's clause to the call.
#[tactic(auto, using(texts::proofs::Typing::typed_append), unfolding(texts::specs::Kept::typed, crate::specs::Shown::source_line, texts::specs::Spelled::spelled, crate::proofs::Columns::columns))]
pub(crate) fn source_line(d: Device, row: usize) -> Text
    ensures { result ≡ typed no_text (source_line d row) }
{
    let mut t = label(&LABELS, row);
    for s in &d.sources {
        t = source_cell(t, *s, row);
    }
    t.push(b'\n')
}
