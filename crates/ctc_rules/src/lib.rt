// The record of a Z80 CTC, its channels, and what comes out of an event, in the names of docs/CTC.md. What goes in is `rules::Event`.
// The rules over them are in specs/; the event call and the end of service are in `ctc_event`.
#![tactic(auto)]

ghost use Rattle.std.specs.Prelude.{◌≡◌};
ghost use Rattle.ctc_rules.specs.Record.{fresh_ctc};
ghost use Rattle.ctc_rules.specs.Sound.{sound_channel, sound_ctc};

// One of the four channels. `control` keeps D7-D3 of its control word; `loaded` says that it has a constant, `awaits` that the next word
// written to it is one. The default is as a reset leaves it.
// Stays: `loaded` is a flag beside `constant`, since the record is docs/CTC.md's: `sound_channel` and the image's bodies name both.
#[derive(Clone, Copy, Default, PartialEq, Eq)]
pub struct Channel {
    pub control: u8,
    pub constant: u8,
    pub count: u8,
    pub prescaler: u8,
    pub loaded: bool,
    pub awaits: bool,
    pub running: bool,
    pub ip: bool,
    pub ius: bool,
}

// The device. `channels` stand in their order of priority; `vector` keeps D7-D3; `levels` are those of the trigger inputs, Di of channel i.
#[derive(Clone, Copy, PartialEq, Eq)]
pub struct Ctc {
    pub channels: [Channel; 4],
    pub vector: u8,
    pub levels: u8,
    pub iei: bool,
}

impl Ctc {
    // How long its image is.
    pub const IMAGE: usize = 41;

    // The fresh device: reset, trigger levels 0, IEI 1.
    pub fn fresh() -> Self
        ensures { result ≡ fresh_ctc }
    {
        Ctc {
            channels: [Channel::default(); 4],
            vector: 0,
            levels: 0,
            iei: true,
        }
    }
}

// A channel after a count or a clock, and whether that was a zero count.
// Stays: in one generic type with `ChannelRan` a field `zeros` would be a bool here and a number there.
#[derive(Clone, Copy)]
pub struct Zeroed {
    pub channel: Channel,
    pub zero: bool,
}

// A channel after some clocks, and its zero counts in them.
#[derive(Clone, Copy)]
pub struct ChannelRan {
    pub channel: Channel,
    pub zeros: u32,
}

// The device after some clocks, and the zero counts of its channels in them.
#[derive(Clone, Copy)]
pub struct CtcRan {
    pub device: Ctc,
    pub zeros: [u32; 4],
}

// What an accepted event does: the record, the value, and the zero counts.
#[derive(Clone, Copy)]
pub struct CtcEffect {
    pub device: Ctc,
    pub value: u8,
    pub zeros: [u32; 4],
}

// The answer to an event, and to the end of service.
// Stays: `code` is a number, as that of a Z8036's answer is (rules::Answer).
#[derive(Clone, Copy, Default, PartialEq, Eq)]
pub struct CtcAnswer {
    pub code: u8,
    pub value: u8,
    pub levels: u8,
    pub int: bool,
    pub ieo: bool,
    pub zeros: [u32; 4],
}

fn sound_channel(c: Channel) -> bool
    ensures { result ≡ sound_channel c }
{
    let counter = c.control / 64 % 2 == 1;
    let by_256 = c.control / 32 % 2 == 1;
    (c.control % 8 == 0)
        & (!c.running | c.loaded)
        & (c.loaded | (c.constant == 0))
        & (!(c.loaded & counter) | c.running)
        & (by_256 | (c.prescaler < 16))
        & ((c.running & !counter) | (c.prescaler == 0))
}

// Whether a record is sound.
#[tactic(auto, unfolding(crate::specs::Sound::sound_ctc))]
pub fn sound(d: Ctc) -> bool
    ensures { result ≡ sound_ctc d }
{
    d.channels.iter().all(|c| sound_channel(*c)) & (d.vector % 8 == 0) & (d.levels < 16)
}
