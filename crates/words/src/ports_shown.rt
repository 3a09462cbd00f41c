// The ports, a fact a line: its label, and a column for each port.
ghost use Rattle.std.specs.Prelude.{◌≡◌};
ghost use Rattle.rules.specs.Record.{pattern_at};
ghost use Rattle.rules.specs.Registers.{port_enabled};
ghost use Rattle.rules.specs.PortData.{seen_at};
ghost use Rattle.rules.specs.Patterns.{match_of};
ghost use Rattle.rules.specs.Interrupts.{highest_at};
ghost use Rattle.texts.specs.Kept.{no_text, typed};
ghost use Rattle.words.specs.Shown.{port_cell, port_line, priority_cell, pattern_mode, pattern_cell, pattern_line, transfer_cell, transfer_line};

use crate::cells::{bit_cell, byte_cell, label, number_cell, yes_cell};
use basics::Place;
use rules::{Device, Transfer};
use texts::Text;

// How many facts a port has, a pattern, and what a handshake holds.
pub const PORT_ROWS: usize = 7;

pub const PATTERN_ROWS: usize = 5;

pub const TRANSFER_ROWS: usize = 5;

// Stays: by a row's number, here and below, as the definitions go (words/Shown.port_labels, words/Shown.port_cell); an enum would list each fact a third time.
const PORT_LABELS: [[u8; 16]; PORT_ROWS] = [
    *b"enabled         ",
    *b"direction       ",
    *b"polarity        ",
    *b"special         ",
    *b"output register ",
    *b"pins            ",
    *b"catchers        ",
];

// Stays: what is shown goes by a number, as the definition does (words/Shown.port_cell), and whoever prints counts it up.
#[tactic(auto, unfolding(crate::specs::Shown::port_cell))]
fn port_cell(t: Text, d: Device, p: Place<3>, row: usize) -> Text
    ensures { result ≡ typed t (port_cell d p row) }
{
    let q = d.ports[p.index()];
    match row {
        0 => yes_cell(t, levels::port_enabled(d, p.index())),
        1 => byte_cell(t, q.direction),
        2 => byte_cell(t, q.polarity),
        3 => byte_cell(t, q.special),
        4 => byte_cell(t, q.output),
        5 => byte_cell(t, levels::pins_at(d, p.index())),
        _ => byte_cell(t, q.catcher),
    }
}

// Stays: its twins fold other parts by other cells; a closure for the cell would carry each cell's clause to the call.
#[tactic(auto, using(texts::proofs::Typing::typed_append), unfolding(texts::specs::Kept::typed, crate::specs::Shown::port_line, texts::specs::Spelled::spelled, crate::proofs::Columns::columns))]
pub(crate) fn port_line(d: Device, row: usize) -> Text
    ensures { result ≡ typed no_text (port_line d row) }
{
    let mut t = label(&PORT_LABELS, row);
    for at in 0..3 {
        t = port_cell(t, d, Place { at }, row);
    }
    t.push(b'\n')
}

const PATTERN_LABELS: [[u8; 16]; PATTERN_ROWS] = [
    *b"pattern         ",
    *b"  polarity      ",
    *b"  transition    ",
    *b"  mask          ",
    *b"PMF             ",
];

// The highest matching bit, if one matches.
#[tactic(auto, unfolding(texts::specs::Kept::typed, texts::specs::Spelled::spelled, crate::specs::Shown::priority_cell, rules::specs::Patterns::highest_match, rules::specs::Interrupts::highest_at))]
fn priority_mode(t: Text, d: Device, p: Place<2>) -> Text
    ensures { result ≡ typed t (priority_cell (match_of (port_enabled d p) (pattern_at d p) (seen_at d p) (seen_at d p)) (highest_at d p)) }
{
    let q = d.patterns[p.index()];
    let enabled = levels::port_enabled(d, p.index());
    let seen = levels::seen_at(d, p.index());
    let u = t.word(b"  priority ");
    if step::matches(enabled, q, seen, seen) {
        return u.push(b'0' + ports::highest(enabled, q, seen));
    }
    u.push(b'-')
}

#[tactic(auto, unfolding(crate::specs::Shown::pattern_mode, texts::specs::Spelled::spelled))]
fn pattern_mode(t: Text, d: Device, p: Place<2>) -> Text
    ensures { result ≡ typed t (pattern_mode d p) }
{
    match d.patterns[p.index()].mode / 2 % 4 {
        1 => t.word(b"         AND"),
        2 => t.word(b"          OR"),
        3 => priority_mode(t, d, p),
        _ => t.word(b"         off"),
    }
}

// Stays: what is shown goes by a number, as the definition does (words/Shown.pattern_cell), and whoever prints counts it up.
#[tactic(auto, unfolding(crate::specs::Shown::pattern_cell))]
fn pattern_cell(t: Text, d: Device, p: Place<2>, row: usize) -> Text
    ensures { result ≡ typed t (pattern_cell d p row) }
{
    let q = d.patterns[p.index()];
    match row {
        0 => pattern_mode(t, d, p),
        1 => byte_cell(t, q.polarity),
        2 => byte_cell(t, q.transition),
        3 => byte_cell(t, q.mask),
        _ => bit_cell(t, q.pmf),
    }
}

// Stays: its twins fold other parts by other cells; a closure for the cell would carry each cell's clause to the call.
#[tactic(auto, using(texts::proofs::Typing::typed_append), unfolding(texts::specs::Kept::typed, crate::specs::Shown::pattern_line, texts::specs::Spelled::spelled, crate::proofs::Columns::columns))]
pub(crate) fn pattern_line(d: Device, row: usize) -> Text
    ensures { result ≡ typed no_text (pattern_line d row) }
{
    let mut t = label(&PATTERN_LABELS, row);
    for at in 0..2 {
        t = pattern_cell(t, d, Place { at }, row);
    }
    t.push(b'\n')
}

const TRANSFER_LABELS: [[u8; 16]; TRANSFER_ROWS] = [
    *b"handshake holds ",
    *b"  front byte    ",
    *b"  byte behind   ",
    *b"  unfinished    ",
    *b"  pair half done",
];

// Stays: what is shown goes by a number, as the definition does (words/Shown.transfer_cell), and whoever prints counts it up.
#[tactic(auto, unfolding(crate::specs::Shown::transfer_cell))]
fn transfer_cell(t: Text, h: Transfer, row: usize) -> Text
    ensures { result ≡ typed t (transfer_cell h row) }
{
    match row {
        0 => number_cell(t, h.bytes as u32),
        1 => byte_cell(t, h.front),
        2 => byte_cell(t, h.behind),
        3 => yes_cell(t, h.unfinished),
        _ => yes_cell(t, h.pair),
    }
}

// Stays: its twins fold other parts by other cells; a closure for the cell would carry each cell's clause to the call.
#[tactic(auto, using(texts::proofs::Typing::typed_append), unfolding(texts::specs::Kept::typed, crate::specs::Shown::transfer_line, texts::specs::Spelled::spelled, crate::proofs::Columns::columns))]
pub(crate) fn transfer_line(d: Device, row: usize) -> Text
    ensures { result ≡ typed no_text (transfer_line d row) }
{
    let mut t = label(&TRANSFER_LABELS, row);
    for h in &d.transfers {
        t = transfer_cell(t, *h, row);
    }
    t.push(b'\n')
}
