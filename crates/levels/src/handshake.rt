// What a handshake puts in the place of a port's own settings, and its lines on Port C.
ghost use Rattle.std.specs.Prelude.{◌≡◌, ◌&&◌, ◌||◌, cond, ◌<◌, ltb};
ghost use Rattle.basics.specs.Byte.{byte_of};
ghost use Rattle.rules.specs.Record.{pattern_at};
ghost use Rattle.rules.specs.Handshakes.{handshakes, offers_at, shown_at, is_line};
ghost use Rattle.rules.specs.PortData.{effective_at, lined};

use crate::{ackin_at, handshakes_at, inputs_at, outputs_at, port_at, port_enabled};
use basics::Place;
use rules::{Device, Port};

// Whether a port has a handshake.
pub(crate) fn any(d: Device) -> bool
    ensures { result ≡ (handshakes (pattern_at d 0) || handshakes (pattern_at d 1)) }
{
    ports::handshakes(d.patterns[0]) | ports::handshakes(d.patterns[1])
}

// A bit for Port A at the places of its lines, D3-D2, and one for Port B at D1-D0.
fn at_lines(a: bool, b: bool) -> u8
    ensures { result ≡ byte_of (λ k. ltb k 4 && cond (ltb k 2) b a) }
{
    (ports::spread(a) & 12) | (ports::spread(b) & 3)
}

// The bits of Port C that are lines.
#[tactic(auto, unfolding(rules::specs::Handshakes::is_line))]
fn lines(d: Device) -> u8
    ensures { result ≡ byte_of (is_line d) }
{
    at_lines(handshakes_at(d, 0), handshakes_at(d, 1))
}

// Whether port p offers to take a byte, or to give one.
#[tactic(auto, unfolding(rules::specs::Handshakes::offers_at))]
pub(crate) fn offers(d: Device, p: Place<2>) -> bool
    ensures { result ≡ offers_at d p }
{
    let p = p.index();
    let enabled = port_enabled(d, p);
    let q = d.patterns[p];
    let t = d.transfers[p];
    if ports::inputs(q) {
        return ports::ready(enabled, q, t);
    }
    ports::available(enabled, q, t, ackin_at(d, p))
}

// What the line of port p shows, before polarity.
#[tactic(auto, unfolding(rules::specs::Handshakes::shown_at))]
fn shown_at(d: Device, p: Place<2>) -> bool
    ensures { result ≡ shown_at d p }
{
    ports::inputs(d.patterns[p.index()]) == offers(d, p)
}

// The byte x of Port C with what ports A and B show in its place: of the lines the odd bits.
#[tactic(auto, unfolding(rules::specs::PortData::lined, rules::specs::Handshakes::is_line))]
fn with_shown(d: Device, x: u8) -> u8
    ensures { result ≡ lined d x }
{
    let m = lines(d) & 0xAA;
    let shown = at_lines(shown_at(d, Place { at: 0 }), shown_at(d, Place { at: 1 }));
    (x & (m ^ 255)) | (shown & m)
}

pub(crate) fn shown(d: Device, x: u8) -> u8
    ensures { result ≡ lined d x }
{
    if any(d) {
        return with_shown(d, x);
    }
    x
}

// Port p with the direction and the special register that are in effect.
#[tactic(auto, unfolding(rules::specs::PortData::direction_at, rules::specs::PortData::special_at))]
pub(crate) fn effective(d: Device, p: usize) -> Port
    ensures { result ≡ effective_at d p }
{
    let q = port_at(d, p);
    if p == 2 {
        let m = lines(d);
        return Port {
            direction: (q.direction & (m ^ 255)) | (m & 0x55),
            special: q.special & ((m & 0x55) ^ 255),
            ..q
        };
    }
    if inputs_at(d, p) {
        return Port {
            direction: 0xFF,
            special: 0x00,
            ..q
        };
    }
    if outputs_at(d, p) {
        return Port {
            direction: 0x00,
            ..q
        };
    }
    q
}
