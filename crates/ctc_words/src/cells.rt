// What stands in a column of twelve bytes, and the labels of the rows.
ghost use Rattle.std.specs.Prelude.{◌≡◌};
ghost use Rattle.texts.specs.Kept.{typed};
ghost use Rattle.ctc_words.specs.Shown.{full_if, constant_cell, waits_cell, channel_cell};

use ctc_rules::Channel;
use texts::Text;
use words::{bit_cell, either, number_cell, yes_cell};

// Stays: by a row's number, as the definitions go (ctc_words/Shown.labels, ctc_words/Shown.channel_cell); an enum would list each fact a third time.
pub(crate) const LABELS: [[u8; 16]; 12] = [
    *b"mode            ",
    *b"factor          ",
    *b"active edge     ",
    *b"timer starts    ",
    *b"interrupt       ",
    *b"time constant   ",
    *b"count           ",
    *b"prescaler       ",
    *b"running         ",
    *b"waits for       ",
    *b"IP              ",
    *b"IUS             ",
];

// 0 is 256 in a channel that has a constant.
// Stays: the flag and the number are two fields of the record (ctc_rules::Channel), and the constant and the count go by the one flag.
#[tactic(auto, unfolding(crate::specs::Shown::full_if))]
fn full(loaded: bool, n: u8) -> u32
    ensures { result ≡ full_if loaded n }
{
    if loaded & (n == 0) {
        return 256;
    }
    n as u32
}

#[tactic(auto, unfolding(crate::specs::Shown::constant_cell, texts::specs::Spelled::spelled))]
fn constant(t: Text, loaded: bool, n: u8) -> Text
    ensures { result ≡ typed t (constant_cell loaded n) }
{
    if loaded {
        return number_cell(t, full(loaded, n));
    }
    t.word(b"           -")
}

// What a channel waits for.
#[tactic(auto, unfolding(crate::specs::Shown::waits_cell, texts::specs::Spelled::spelled))]
fn waits(t: Text, c: Channel) -> Text
    ensures { result ≡ typed t (waits_cell c) }
{
    if c.awaits {
        return t.word(b"    constant");
    }
    if c.running {
        return t.word(b"           -");
    }
    either(t, c.loaded, b"        edge", b"     control")
}

// A fact of a channel.
// Stays: what is shown goes by a number, as the definition does (ctc_words/Shown.channel_cell), and whoever prints counts it up.
#[tactic(auto, unfolding(crate::specs::Shown::channel_cell, crate::specs::Shown::kind_cell, texts::specs::Spelled::spelled, crate::specs::Shown::factor_cell, crate::specs::Shown::edge_cell, crate::specs::Shown::start_cell, crate::specs::Shown::on_cell))]
pub(crate) fn channel(t: Text, c: Channel, row: usize) -> Text
    ensures { result ≡ typed t (channel_cell c row) }
{
    let k = c.control;
    match row {
        0 => either(t, k / 64 % 2 == 1, b"     counter", b"       timer"),
        1 => either(t, k / 32 % 2 == 1, b"         256", b"          16"),
        2 => either(t, k / 16 % 2 == 1, b"      rising", b"     falling"),
        3 => either(t, k / 8 % 2 == 1, b"     at edge", b" at constant"),
        4 => either(t, k / 128 % 2 == 1, b"          on", b"         off"),
        5 => constant(t, c.loaded, c.constant),
        6 => number_cell(t, full(c.loaded, c.count)),
        7 => number_cell(t, c.prescaler as u32),
        8 => yes_cell(t, c.running),
        9 => waits(t, c),
        10 => bit_cell(t, c.ip),
        _ => bit_cell(t, c.ius),
    }
}
