// Body 1: the record that its registers tell.
ghost use Rattle.std.specs.Prelude.{◌≡◌};
ghost use Rattle.bodies.specs.Taken.{byte_at, source_in, sources_in, port_in, ports_in, pattern_in, counter_in, registers_in};

use crate::bits::bit_at;
use basics::Place;
use rules::{Counter, Device, Lines, Pattern, Port, Source, Transfer};

// IUS, IE, IP, ERR from the command register at a place.
fn source_at(b: &[u8], i: usize) -> Source
    ensures { result ≡ source_in (byte_at b.now i) }
{
    Source {
        ius: bit_at(b, i, 7),
        ie: bit_at(b, i, 6),
        ip: bit_at(b, i, 5),
        err: bit_at(b, i, 4),
        hidden: false,
    }
}

// CT3, A, CT2, B, CT1.
fn sources_in(b: &[u8]) -> [Source; 5]
    ensures { result ≡ sources_in b.now }
{
    [
        source_at(b, 0x0C),
        source_at(b, 0x08),
        source_at(b, 0x0B),
        source_at(b, 0x09),
        source_at(b, 0x0A),
    ]
}

// The port of four places.
fn port_at(b: &[u8], polarity: usize, direction: usize, special: usize, output: usize) -> Port
    ensures { result ≡ port_in (byte_at b.now polarity) (byte_at b.now direction) (byte_at b.now special) (byte_at b.now output) }
{
    Port {
        polarity: basics::byte_at(b, polarity),
        direction: basics::byte_at(b, direction),
        special: basics::byte_at(b, special),
        output: basics::byte_at(b, output),
        outside: 0,
        catcher: 0,
    }
}

fn ports_in(b: &[u8]) -> [Port; 3]
    ensures { result ≡ ports_in b.now }
{
    [
        port_at(b, 0x22, 0x23, 0x24, 0x0D),
        port_at(b, 0x2A, 0x2B, 0x2C, 0x0E),
        port_at(b, 0x05, 0x06, 0x07, 0x0F),
    ]
}

// Port A's or B's.
#[tactic(auto, unfolding(bodies::specs::Taken::pattern_in))]
pub(crate) fn pattern_in(b: &[u8], p: Place<2>) -> Pattern
    ensures { result ≡ pattern_in b.now p }
{
    let p = p.index();
    Pattern {
        mode: basics::byte_at(b, 0x20 + 8 * p),
        handshake: basics::byte_at(b, 0x21 + 8 * p),
        polarity: basics::byte_at(b, 0x25 + 8 * p),
        transition: basics::byte_at(b, 0x26 + 8 * p),
        mask: basics::byte_at(b, 0x27 + 8 * p),
        ioe: bit_at(b, 0x08 + p, 0),
        pmf: bit_at(b, 0x08 + p, 1),
    }
}

// Counter i's.
#[tactic(auto, unfolding(bodies::specs::Taken::counter_in))]
fn counter_in(b: &[u8], i: Place<3>) -> Counter
    ensures { result ≡ counter_in b.now i }
{
    let i = i.index();
    Counter {
        mode: basics::byte_at(b, 0x1C + i),
        constant: basics::word_at(b, 0x16 + 2 * i, 0x17 + 2 * i),
        count: 0,
        frozen: basics::word_at(b, 0x10 + 2 * i, 0x11 + 2 * i),
        rcc: bit_at(b, 0x0A + i, 3),
        gcb: bit_at(b, 0x0A + i, 2),
        cip: bit_at(b, 0x0A + i, 0),
        half: false,
        pulse: false,
    }
}

#[tactic(auto, unfolding(bodies::specs::Taken::registers_in))]
pub(crate) fn read_registers(version: u8, b: &[u8]) -> Device
    ensures { result ≡ registers_in version b.now }
{
    Device {
        version,
        master: basics::byte_at(b, 0x00),
        config: basics::byte_at(b, 0x01),
        vectors: [
            basics::byte_at(b, 0x02),
            basics::byte_at(b, 0x03),
            basics::byte_at(b, 0x04),
        ],
        ports: ports_in(b),
        patterns: [
            pattern_in(b, Place { at: 0 }),
            pattern_in(b, Place { at: 1 }),
        ],
        transfers: [Transfer::default(); 2],
        counters: [
            counter_in(b, Place { at: 0 }),
            counter_in(b, Place { at: 1 }),
            counter_in(b, Place { at: 2 }),
        ],
        sources: sources_in(b),
        iei: false,
        phase: false,
        lines: Lines::default(),
    }
}
