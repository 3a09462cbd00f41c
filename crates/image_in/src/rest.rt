// Bodies 2 to 5: what each puts into a record.
ghost use Rattle.std.specs.Prelude.{◌≡◌};
ghost use Rattle.rules.specs.With.{with_hidden, with_outside, with_catcher};
ghost use Rattle.bodies.specs.Taken.{counter_with, sources_with, counts_in, ports_with, hidden_with, pins_in, lines_in, transfer_in, transfers_in};

use crate::bits::bit_at;
use basics::Place;
use rules::{Counter, Device, Port, Source, Transfer};

// Counter i with its count, its half and its pulse.
#[tactic(auto, unfolding(bodies::specs::Taken::counter_with))]
fn counter_with(c: Counter, b: &[u8], i: Place<3>) -> Counter
    ensures { result ≡ counter_with c b.now i }
{
    let i = i.index();
    Counter {
        count: basics::word_at(b, 3 * i, 1 + 3 * i),
        half: bit_at(b, 2 + 3 * i, 0),
        pulse: bit_at(b, 2 + 3 * i, 2),
        ..c
    }
}

fn hide(s: Source, v: bool) -> Source
    ensures { result ≡ with_hidden s v }
{
    Source { hidden: v, ..s }
}

// The hidden errors of CT3, CT2 and CT1.
fn sources_with(s: [Source; 5], b: &[u8]) -> [Source; 5]
    ensures { result ≡ sources_with s b.now }
{
    [
        hide(s[0], bit_at(b, 8, 1)),
        s[1],
        hide(s[2], bit_at(b, 5, 1)),
        s[3],
        hide(s[4], bit_at(b, 2, 1)),
    ]
}

#[tactic(auto, unfolding(bodies::specs::Taken::counts_in))]
pub(crate) fn read_counts(d: Device, b: &[u8]) -> Device
    ensures { result ≡ counts_in d b.now }
{
    Device {
        counters: [
            counter_with(d.counters[0], b, Place { at: 0 }),
            counter_with(d.counters[1], b, Place { at: 1 }),
            counter_with(d.counters[2], b, Place { at: 2 }),
        ],
        sources: sources_with(d.sources, b),
        ..d
    }
}

fn pin_in(q: Port, outside: u8, catcher: u8) -> Port
    ensures { result ≡ with_catcher (with_outside q outside) catcher }
{
    Port {
        outside,
        catcher,
        ..q
    }
}

fn ports_with(q: [Port; 3], b: &[u8]) -> [Port; 3]
    ensures { result ≡ ports_with q b.now }
{
    [
        pin_in(q[0], basics::byte_at(b, 0), basics::byte_at(b, 3)),
        pin_in(q[1], basics::byte_at(b, 1), basics::byte_at(b, 4)),
        pin_in(q[2], basics::byte_at(b, 2), basics::byte_at(b, 5)),
    ]
}

// The hidden errors of A and B.
fn hidden_with(s: [Source; 5], b: &[u8]) -> [Source; 5]
    ensures { result ≡ hidden_with s b.now }
{
    [
        s[0],
        hide(s[1], bit_at(b, 6, 0)),
        s[2],
        hide(s[3], bit_at(b, 6, 1)),
        s[4],
    ]
}

#[tactic(auto, unfolding(bodies::specs::Taken::pins_in))]
pub(crate) fn read_pins(d: Device, b: &[u8]) -> Device
    ensures { result ≡ pins_in d b.now }
{
    Device {
        ports: ports_with(d.ports, b),
        sources: hidden_with(d.sources, b),
        ..d
    }
}

#[tactic(auto, unfolding(bodies::specs::Taken::lines_in))]
pub(crate) fn read_lines(d: Device, b: &[u8]) -> Device
    ensures { result ≡ lines_in d b.now }
{
    Device {
        iei: bit_at(b, 0, 0),
        phase: bit_at(b, 1, 0),
        ..d
    }
}

// What port p holds.
#[tactic(auto, unfolding(bodies::specs::Taken::transfer_in))]
pub(crate) fn transfer_in(b: &[u8], p: Place<2>) -> Transfer
    ensures { result ≡ transfer_in b.now p }
{
    let p = p.index();
    Transfer {
        front: basics::byte_at(b, 4 * p),
        behind: basics::byte_at(b, 1 + 4 * p),
        bytes: basics::byte_at(b, 2 + 4 * p),
        unfinished: bit_at(b, 3 + 4 * p, 0),
        pair: bit_at(b, 3 + 4 * p, 1),
    }
}

#[tactic(auto, unfolding(bodies::specs::Taken::transfers_in))]
pub(crate) fn read_transfers(d: Device, b: &[u8]) -> Device
    ensures { result ≡ transfers_in d b.now }
{
    Device {
        transfers: [
            transfer_in(b, Place { at: 0 }),
            transfer_in(b, Place { at: 1 }),
        ],
        ..d
    }
}
