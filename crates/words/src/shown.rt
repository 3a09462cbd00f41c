// A device in words, line by line.
ghost use Rattle.std.specs.Prelude.{◌≡◌};
ghost use Rattle.texts.specs.Kept.{no_text, typed};
ghost use Rattle.words.specs.Shown.{head_line, tail_line, shown_line};

use crate::counters_shown::{ROWS as COUNTER_ROWS, counter_line};
use crate::heads::{
    acknowledge_line, levels_line, link_line, master_line, request_line, version_line,
};
use crate::ports_shown::{
    PATTERN_ROWS, PORT_ROWS, TRANSFER_ROWS, pattern_line, port_line, transfer_line,
};
use crate::sources_shown::{ROWS as SOURCE_ROWS, source_line};
use rules::Device;
use texts::Text;

// The first line of each part, and how many lines there are.
const PORTS: usize = 4;

const PATTERNS: usize = PORTS + PORT_ROWS;

const TRANSFERS: usize = PATTERNS + PATTERN_ROWS;

const COUNTER_HEAD: usize = TRANSFERS + TRANSFER_ROWS;

const COUNTERS: usize = COUNTER_HEAD + 1;

const SOURCE_HEAD: usize = COUNTERS + COUNTER_ROWS;

const SOURCES: usize = SOURCE_HEAD + 1;

const TAIL: usize = SOURCES + SOURCE_ROWS;

pub const LINES: usize = TAIL + 3;

// The lines above the ports' columns.
// Stays: what is shown goes by a number, as the definition does (words/Shown.head_line), and whoever prints counts it up.
#[tactic(auto, unfolding(crate::specs::Shown::head_line, texts::specs::Spelled::spelled))]
fn head_line(d: Device, n: usize) -> Text
    ensures { result ≡ typed no_text (head_line d n) }
{
    match n {
        0 => version_line(d.version),
        1 => master_line(d.master),
        2 => link_line(d.config % 4),
        _ => Text::new().word(b"port                       A           B           C\n"),
    }
}

// The lines below the sources' columns.
// Stays: what is shown goes by a number, as the definition does (words/Shown.tail_line), and whoever prints counts it up.
#[tactic(auto, unfolding(crate::specs::Shown::tail_line))]
fn tail_line(d: Device, n: usize) -> Text
    ensures { result ≡ typed no_text (tail_line d n) }
{
    match n {
        0 => levels_line(d),
        1 => request_line(d.lines.place),
        _ => acknowledge_line(d),
    }
}

// Line n of a device, with its line feed.
// Stays: what is shown goes by a number, as the definition does (words/Shown.shown_line), and whoever prints counts it up.
#[tactic(auto, unfolding(crate::specs::Shown::shown_line, texts::specs::Spelled::spelled))]
pub fn line(d: Device, n: usize) -> Text
    ensures { result ≡ typed no_text (shown_line d n) }
{
    match n {
        0..PORTS => head_line(d, n),
        PORTS..PATTERNS => port_line(d, n - PORTS),
        PATTERNS..TRANSFERS => pattern_line(d, n - PATTERNS),
        TRANSFERS..COUNTER_HEAD => transfer_line(d, n - TRANSFERS),
        COUNTER_HEAD => Text::new().word(b"counter                  CT1         CT2         CT3\n"),
        COUNTERS..SOURCE_HEAD => counter_line(d, n - COUNTERS),
        SOURCE_HEAD => Text::new().word(
            b"source                   CT3           A         CT2           B         CT1\n",
        ),
        SOURCES..TAIL => source_line(d, n - SOURCES),
        _ => tail_line(d, n - TAIL),
    }
}
