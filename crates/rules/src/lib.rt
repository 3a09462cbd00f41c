// The record of a Z8036, its parts, and what goes in and comes out of an event, in the names of paper 01.
// The rules over them are in specs/, in the paper's words.
#![tactic(auto)]

mod refusal;

ghost use Rattle.std.specs.Prelude.{◌≡◌, ◌%◌};
ghost use Rattle.rules.specs.Record.{quiet, idle, bare, blank, vacant, silent, fresh_of, image_len, register_count, of_port, of_counter};
ghost use Rattle.rules.specs.Registers.{reset};

pub use refusal::{Refusal, code};

// One of the five interrupt sources: what its command register shows, and the hidden error, which none does.
#[derive(Clone, Copy, Default, PartialEq, Eq)]
pub struct Source {
    pub ius: bool,
    pub ie: bool,
    pub ip: bool,
    pub err: bool,
    pub hidden: bool,
}

impl Source {
    // The places of the five, in their order of priority.
    pub const CT3: usize = 0;

    pub const A: usize = 1;

    pub const CT2: usize = 2;

    pub const B: usize = 3;

    pub const CT1: usize = 4;

    // The place of the source of port p, of A and B alone: past them, of A, B, A again.
    pub fn of_port(p: usize) -> usize
        ensures { result ≡ of_port (p % 2) }
    {
        Source::A + 2 * (p % 2)
    }

    // The place of the source of counter i; past the third, of the first again.
    pub fn of_counter(i: usize) -> usize
        ensures { result ≡ of_counter (i % 3) }
    {
        Source::CT1 - 2 * (i % 3)
    }
}

// One of the three counter/timers. `frozen` is what 10H-15H read while RCC is 1; `pulse` stands from a terminal on.
// Stays: `rcc` is a flag beside `frozen`, since the record is paper 01's: `sound_counter` and the image's bodies name both.
#[derive(Clone, Copy, Default, PartialEq, Eq)]
pub struct Counter {
    pub mode: u8,
    pub constant: u16,
    pub count: u16,
    pub frozen: u16,
    pub rcc: bool,
    pub gcb: bool,
    pub cip: bool,
    pub half: bool,
    pub pulse: bool,
}

// The data of one of the ports A, B and C: three settings, the output register, the outside levels, the catchers.
#[derive(Clone, Copy, Default, PartialEq, Eq)]
pub struct Port {
    pub polarity: u8,
    pub direction: u8,
    pub special: u8,
    pub output: u8,
    pub outside: u8,
    pub catcher: u8,
}

// What ports A and B have and C has not: mode, handshake, pattern, IOE and PMF.
#[derive(Clone, Copy, Default, PartialEq, Eq)]
pub struct Pattern {
    pub mode: u8,
    pub handshake: u8,
    pub polarity: u8,
    pub transition: u8,
    pub mask: u8,
    pub ioe: bool,
    pub pmf: bool,
}

// What a port with handshake holds: the front byte, the byte behind it, how many are held, a transfer that is unfinished,
// and a pair of reads or writes half done.
// Stays: the record has room for two bytes and says how many it holds, as paper 01 and body 5 of an image have it.
#[derive(Clone, Copy, Default, PartialEq, Eq)]
pub struct Transfer {
    pub front: u8,
    pub behind: u8,
    pub bytes: u8,
    pub unfinished: bool,
    pub pair: bool,
}

// The interrupt lines as they are stored: INT, IEO, and the place of the highest requester in the order CT3, A, CT2, B, CT1, 1 to 5, 0 if none requests.
#[derive(Clone, Copy, Default, PartialEq, Eq)]
pub struct Lines {
    pub int: bool,
    pub ieo: bool,
    pub place: u8,
}

impl Lines {
    // As a reset leaves them.
    fn silent(iei: bool) -> Self
        ensures { result ≡ silent iei }
    {
        Lines {
            int: false,
            ieo: iei,
            place: 0,
        }
    }
}

// The device. `version` is 1 or 2, of its pulse and its image; `vectors` are A, B, CT; `ports` A, B, C; `patterns` and `transfers` A, B; `counters` 1, 2, 3;
// `sources` stand in their order of priority: CT3, A, CT2, B, CT1.
// Stays: `version` is a number, since a record may hold any byte there, and `sound_version` answers for those that are neither 1 nor 2.
#[derive(Clone, Copy, PartialEq, Eq)]
pub struct Device {
    pub version: u8,
    pub master: u8,
    pub config: u8,
    pub vectors: [u8; 3],
    pub ports: [Port; 3],
    pub patterns: [Pattern; 2],
    pub transfers: [Transfer; 2],
    pub counters: [Counter; 3],
    pub sources: [Source; 5],
    pub iei: bool,
    pub phase: bool,
    pub lines: Lines,
}

impl Device {
    // How long the images of versions 1 and 2 are.
    pub const OLD_IMAGE: usize = 84;

    pub const IMAGE: usize = 96;

    pub const REGISTERS: usize = 48;

    // The fresh device: reset, outside pins 0, IEI 1.
    pub fn fresh() -> Self
        ensures { result ≡ fresh_of }
    {
        Device {
            version: 2,
            master: 1,
            config: 0,
            vectors: [0; 3],
            ports: [Port::default(); 3],
            patterns: [Pattern::default(); 2],
            transfers: [Transfer::default(); 2],
            counters: [Counter::default(); 3],
            sources: [Source::default(); 5],
            iei: true,
            phase: false,
            lines: Lines::silent(true),
        }
    }

    // How long the image of a version is.
    #[tactic(auto, unfolding(crate::specs::Record::image_len))]
    pub fn image_len(version: u8) -> usize
        ensures { result ≡ image_len version }
    {
        if version == 1 {
            Device::OLD_IMAGE
        } else {
            Device::IMAGE
        }
    }

    // The constant's value, for those who know it by the definition.
    pub fn registers() -> usize
        ensures { result ≡ register_count }
    {
        Device::REGISTERS
    }

    // Whether the RESET bit holds the device.
    pub fn reset(self) -> bool
        ensures { result ≡ reset self }
    {
        self.master % 2 == 1
    }
}

// A kind and three numbers; a kind ignores those that it does not use.
// Stays: `kind` is a number, since the C interface hands it over as one, and `code_of` answers 1 to any above 6.
#[derive(Clone, Copy)]
pub struct Event {
    pub kind: u32,
    pub a: u32,
    pub b: u32,
    pub c: u32,
}

// The kinds by their letters.
impl Event {
    pub const X: u32 = 0;

    pub const W: u32 = 1;

    pub const R: u32 = 2;

    pub const P: u32 = 3;

    pub const T: u32 = 4;

    pub const K: u32 = 5;

    pub const E: u32 = 6;
}

// What an answer reports of its clocks: the terminal counts of counters 1, 2, 3, and how many of them were lost.
// Stays: two lists side by side, since paper 01 reports them so, and `report_text` and the answer in C have all terminals first.
#[derive(Clone, Copy, Default, PartialEq, Eq)]
pub struct Report {
    pub terminals: [u32; 3],
    pub lost: [u32; 3],
}

// The answer to an event.
// Stays: `code` is a number, since paper 01 says that a code answers, and C gets it as a byte.
#[derive(Clone, Copy, Default, PartialEq, Eq)]
pub struct Answer {
    pub code: u8,
    pub value: u8,
    pub a: u8,
    pub b: u8,
    pub c: u8,
    pub int: bool,
    pub ieo: bool,
    pub report: Report,
}

// What an event hands back: the device, and the answer beside it.
#[derive(Clone, Copy)]
pub struct Outcome<D, A = Answer> {
    pub device: D,
    pub answer: A,
}

// The kind of a register. The number is the port's (A, B, C), the counter's or the vector's place;
// of a word's two registers the bool tells the high byte.
#[derive(Clone, Copy, PartialEq, Eq)]
pub enum Kind {
    Master,
    Config,
    Vector(usize),
    Polarity(usize),
    Direction(usize),
    Special(usize),
    PortCommand(usize),
    CounterCommand(usize),
    Data(usize),
    Current(usize, bool),
    Constant(usize, bool),
    CounterMode(usize),
    CurrentVector,
    PortMode(usize),
    Handshake(usize),
    PatternPolarity(usize),
    Transition(usize),
    Mask(usize),
    Absent,
}

// A counter after its turn in a step, and whether it was terminal.
#[derive(Clone, Copy)]
pub struct Counted {
    pub counter: Counter,
    pub terminal: bool,
}

// What CT1's output does to CT2: a trigger, a gate, and whether it is the only count source and counts.
#[derive(Clone, Copy, PartialEq, Eq)]
pub struct Link {
    pub trigger: bool,
    pub gate: bool,
    pub only: bool,
    pub count: bool,
}

// What reaches a counter in a step: a trigger, an open gate, a count.
#[derive(Clone, Copy)]
pub struct Reach {
    pub trigger: bool,
    pub gate: bool,
    pub count: bool,
}

// What became of an event (a terminal, a match) at its source: none came, it was taken, kept as the hidden error, or lost.
#[derive(Clone, Copy, PartialEq, Eq)]
pub enum Fate {
    Nothing,
    Taken,
    Kept,
    Lost,
}

// A device in the middle of a step, after one counter's turn, and what became of its terminal.
#[derive(Clone, Copy)]
pub struct Turned {
    pub device: Device,
    pub fate: Fate,
}

// A device after a step, which of the counters 1, 2, 3 were terminal, and which terminals were lost.
// Stays: two lists side by side, as the report has them.
#[derive(Clone, Copy)]
pub struct Stepped {
    pub device: Device,
    pub terminals: [bool; 3],
    pub lost: [bool; 3],
}

// A device after some clocks, and their report.
#[derive(Clone, Copy)]
pub struct Ran {
    pub device: Device,
    pub report: Report,
}

// What an accepted event does: the record, the value and the report.
#[derive(Clone, Copy)]
pub struct Effect {
    pub device: Device,
    pub value: u8,
    pub report: Report,
}
