// Bodies 2 to 5.
ghost use Rattle.std.specs.Prelude.{◌≡◌, ◌+◌, if◌then◌else◌};
ghost use Rattle.bodies.specs.Written.{counts_body, pins_body, lines_body, transfers_body};

use rules::{Device, Source};

// Two flags, in D0 and D1.
fn flags(d0: bool, d1: bool) -> u8
    ensures { result ≡ (if d0 then 1 else 0) + (if d1 then 2 else 0) }
{
    basics::weight(d0, 1) + basics::weight(d1, 2)
}

// A counter's flags: its half, its hidden error and its pulse.
fn counter_flags(half: bool, hidden: bool, pulse: bool) -> u8
    ensures { result ≡ (if half then 1 else 0) + (if hidden then 2 else 0) + (if pulse then 4 else 0) }
{
    basics::weight(half, 1) + basics::weight(hidden, 2) + basics::weight(pulse, 4)
}

// Per counter: the count, high first, then its flags.
#[tactic(auto, unfolding(bodies::specs::Written::counts_body, bodies::specs::Written::flags_of))]
pub(crate) fn counts(d: Device) -> [u8; 9]
    ensures { result ≡ counts_body d }
{
    let a = d.counters[0];
    let b = d.counters[1];
    let c = d.counters[2];
    [
        basics::byte_in(true, a.count),
        basics::byte_in(false, a.count),
        counter_flags(a.half, d.sources[Source::CT1].hidden, a.pulse),
        basics::byte_in(true, b.count),
        basics::byte_in(false, b.count),
        counter_flags(b.half, d.sources[Source::CT2].hidden, b.pulse),
        basics::byte_in(true, c.count),
        basics::byte_in(false, c.count),
        counter_flags(c.half, d.sources[Source::CT3].hidden, c.pulse),
    ]
}

// Outside levels, catchers, hidden errors.
#[tactic(auto, unfolding(bodies::specs::Written::pins_body, bodies::specs::Written::hidden_of))]
pub(crate) fn pins(d: Device) -> [u8; 7]
    ensures { result ≡ pins_body d }
{
    let a = d.ports[0];
    let b = d.ports[1];
    let c = d.ports[2];
    [
        a.outside,
        b.outside,
        c.outside,
        a.catcher,
        b.catcher,
        c.catcher,
        flags(d.sources[Source::A].hidden, d.sources[Source::B].hidden),
    ]
}

// IEI and the phase.
#[tactic(auto, unfolding(bodies::specs::Written::lines_body))]
pub(crate) fn lines(d: Device) -> [u8; 2]
    ensures { result ≡ lines_body d }
{
    [basics::weight(d.iei, 1), basics::weight(d.phase, 1)]
}

// Per port with handshake: the front byte, the byte behind, how many are held, and two flags.
#[tactic(auto, unfolding(bodies::specs::Written::transfers_body))]
pub(crate) fn transfers(d: Device) -> [u8; 8]
    ensures { result ≡ transfers_body d }
{
    let a = d.transfers[0];
    let b = d.transfers[1];
    [
        a.front,
        a.behind,
        a.bytes,
        flags(a.unfinished, a.pair),
        b.front,
        b.behind,
        b.bytes,
        flags(b.unfinished, b.pair),
    ]
}
