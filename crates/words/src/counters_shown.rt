// The counters, a fact a line: its label, and a column for each counter.
ghost use Rattle.std.specs.Prelude.{◌≡◌};
ghost use Rattle.texts.specs.Kept.{no_text, typed};
ghost use Rattle.words.specs.Shown.{mode_cell, count_shown, frozen_cell, counter_cell, counter_column, counter_line};

use crate::cells::{bit, bit_cell, either, label, number_cell, yes_cell};
use basics::Place;
use rules::{Counter, Device};
use texts::Text;

// The bits of a mode.
const CONTINUOUS: u8 = 7;

const OUTPUT: u8 = 6;

const COUNT_INPUT: u8 = 5;

const TRIGGER_INPUT: u8 = 4;

const GATE_INPUT: u8 = 3;

const RETRIGGER: u8 = 2;

// How many facts a counter has.
pub const ROWS: usize = 16;

// Stays: by a row's number, as the definitions go (words/Shown.counter_labels, words/Shown.counter_cell); an enum would list each fact a third time.
const LABELS: [[u8; 16]; ROWS] = [
    *b"enabled         ",
    *b"mode            ",
    *b"                ",
    *b"counts          ",
    *b"trigger line    ",
    *b"gate line       ",
    *b"output line     ",
    *b"retrigger       ",
    *b"time constant   ",
    *b"count           ",
    *b"gate (GCB)      ",
    *b"in progress CIP ",
    *b"half            ",
    *b"frozen count    ",
    *b"pulse bit       ",
    *b"output          ",
];

#[tactic(auto, unfolding(crate::specs::Shown::mode_cell, texts::specs::Spelled::spelled))]
fn mode_cell(t: Text, mode: u8) -> Text
    ensures { result ≡ typed t (mode_cell mode) }
{
    match mode % 4 {
        0 => t.word(b"       pulse"),
        1 => t.word(b"    one-shot"),
        _ => t.word(b"      square"),
    }
}

// The count; of a running counter 0 is 65,536.
#[tactic(auto, unfolding(crate::specs::Shown::count_shown))]
fn count_shown(c: Counter) -> u32
    ensures { result ≡ count_shown c }
{
    if c.cip & (c.count == 0) {
        return 65536;
    }
    c.count as u32
}

#[tactic(auto, unfolding(crate::specs::Shown::frozen_cell, texts::specs::Spelled::spelled))]
fn frozen_cell(t: Text, rcc: bool, n: u16) -> Text
    ensures { result ≡ typed t (frozen_cell rcc n) }
{
    if rcc {
        return number_cell(t, n as u32);
    }
    t.word(b"           -")
}

// Stays: what is shown goes by a number, as the definition does (words/Shown.counter_cell), and whoever prints counts it up.
#[tactic(auto, unfolding(crate::specs::Shown::counter_cell, crate::specs::Shown::again_cell, texts::specs::Spelled::spelled, crate::specs::Shown::counts_cell, crate::specs::Shown::half_cell))]
fn counter_cell(t: Text, version: u8, enabled: bool, c: Counter, row: usize) -> Text
    ensures { result ≡ typed t (counter_cell version enabled c row) }
{
    match row {
        0 => yes_cell(t, enabled),
        1 => mode_cell(t, c.mode),
        2 => either(t, bit(c.mode, CONTINUOUS), b"  continuous", b"      single"),
        3 => either(
            t,
            bit(c.mode, COUNT_INPUT),
            b"   its input",
            b"      clocks",
        ),
        4 => yes_cell(t, bit(c.mode, TRIGGER_INPUT)),
        5 => yes_cell(t, bit(c.mode, GATE_INPUT)),
        6 => yes_cell(t, bit(c.mode, OUTPUT)),
        7 => yes_cell(t, bit(c.mode, RETRIGGER)),
        8 => number_cell(t, c.constant as u32),
        9 => number_cell(t, count_shown(c)),
        10 => bit_cell(t, c.gcb),
        11 => bit_cell(t, c.cip),
        12 => either(t, c.half, b"      second", b"       first"),
        13 => frozen_cell(t, c.rcc, c.frozen),
        14 => bit_cell(t, c.pulse),
        _ => bit_cell(t, counters::output(version, c)),
    }
}

// Counter i's column.
#[tactic(auto, unfolding(crate::specs::Shown::counter_column))]
fn counter_column(t: Text, d: Device, i: Place<3>, row: usize) -> Text
    ensures { result ≡ typed t (counter_column d i row) }
{
    let enabled = levels::counter_on(d.config, i.index());
    counter_cell(t, d.version, enabled, d.counters[i.index()], row)
}

// Stays: its twins fold other parts by other cells; a closure for the cell would carry each cell's clause to the call.
#[tactic(auto, using(texts::proofs::Typing::typed_append), unfolding(texts::specs::Kept::typed, crate::specs::Shown::counter_line, texts::specs::Spelled::spelled, crate::proofs::Columns::columns))]
pub(crate) fn counter_line(d: Device, row: usize) -> Text
    ensures { result ≡ typed no_text (counter_line d row) }
{
    let mut t = label(&LABELS, row);
    for at in 0..3 {
        t = counter_column(t, d, Place { at }, row);
    }
    t.push(b'\n')
}
