// What the ports of a device show: the values put out, pins, path values and data.
#![tactic(auto)]

mod handshake;
mod port;

ghost use Rattle.std.specs.Prelude.{◌≡◌, false, ◌||◌};
ghost use Rattle.rules.specs.Record.{port_at, pattern_at, transfer_at};
ghost use Rattle.rules.specs.Registers.{port_on, port_enabled, counter_on};
ghost use Rattle.rules.specs.Handshakes.{inputs, outputs, handshakes, ackin_at, offers_at};
ghost use Rattle.rules.specs.PortData.{direction_at, effective_at, value_at, pins_at, path_at, seen_at, data_at};
ghost use Rattle.levels.specs.Outputs.{with_outputs};
ghost use Rattle.levels.specs.Looks.{looks_of};

use basics::Place;
use rules::{Device, Port};

// Whether a configuration enables port p.
// Stays: three bits of register 01 each, by name; a table of weights would hide which is which.
#[tactic(auto, unfolding(rules::specs::Registers::port_on))]
pub fn port_on(config: u8, p: usize) -> bool
    ensures { result ≡ port_on config p }
{
    if p == 0 {
        return config / 4 % 2 == 1;
    }
    if p == 1 {
        return config / 128 % 2 == 1;
    }
    config / 16 % 2 == 1
}

pub fn port_enabled(d: Device, p: usize) -> bool
    ensures { result ≡ port_enabled d p }
{
    port_on(d.config, p)
}

// Whether a configuration enables counter i.
// Stays: three bits of register 01 each, by name; a table of weights would hide which is which.
#[tactic(auto, unfolding(rules::specs::Registers::counter_on))]
pub fn counter_on(config: u8, i: usize) -> bool
    ensures { result ≡ counter_on config i }
{
    if i == 0 {
        return config / 64 % 2 == 1;
    }
    if i == 1 {
        return config / 32 % 2 == 1;
    }
    config / 16 % 2 == 1
}

// Port p: A, B, C, and past them one at rest.
fn port_at(d: Device, p: usize) -> Port
    ensures { result ≡ port_at d p }
{
    // By `get`, handshakes cost more; so below (docs/COSTS.md, "Speed").
    let [a, b, c] = d.ports;
    match p {
        0 => a,
        1 => b,
        2 => c,
        _ => Port::default(),
    }
}

// Whether port p is an input port with handshake, an output port, or one of the two; past A and B none is.
// Stays: the twin asks another question of a pattern; by a look-up with `get`, which both shared, handshakes cost more (docs/COSTS.md, "Speed").
pub fn inputs_at(d: Device, p: usize) -> bool
    ensures { result ≡ inputs (pattern_at d p) }
{
    let [a, b] = d.patterns;
    match p {
        0 => ports::inputs(a),
        1 => ports::inputs(b),
        _ => false,
    }
}

// Stays: likewise.
pub fn outputs_at(d: Device, p: usize) -> bool
    ensures { result ≡ outputs (pattern_at d p) }
{
    let [a, b] = d.patterns;
    match p {
        0 => ports::outputs(a),
        1 => ports::outputs(b),
        _ => false,
    }
}

fn handshakes_at(d: Device, p: usize) -> bool
    ensures { result ≡ handshakes (pattern_at d p) }
{
    inputs_at(d, p) | outputs_at(d, p)
}

// The path value of the ACKIN of port p; past A and B, of B's.
#[tactic(auto, unfolding(rules::specs::Handshakes::ackin_at))]
pub fn ackin_at(d: Device, p: usize) -> bool
    ensures { result ≡ ackin_at d p }
{
    let path = d.ports[2].outside ^ d.ports[2].polarity;
    if p == 0 {
        return path / 4 % 2 == 1;
    }
    path % 2 == 1
}

// What port p puts out for the outside to act on; past A and B nothing.
pub fn offers_at(d: Device, p: usize) -> bool
    ensures { result ≡ offers_at d p }
{
    match Place::of(p) {
        Some(p) => handshake::offers(d, p),
        None => false,
    }
}

// The front byte of port p; past A and B 0.
fn front_at(d: Device, p: usize) -> u8
    ensures { result ≡ (transfer_at d p).front }
{
    d.transfers.get(p).copied().unwrap_or_default().front
}

// Port p with what is in effect: its own settings, but for a handshake.
pub fn effective_at(d: Device, p: usize) -> Port
    ensures { result ≡ effective_at d p }
{
    if handshake::any(d) {
        return handshake::effective(d, p);
    }
    port_at(d, p)
}

pub fn direction_at(d: Device, p: usize) -> u8
    ensures { result ≡ direction_at d p }
{
    effective_at(d, p).direction
}

// The byte x of port p with the outputs of the counters that stand for its bits.
#[tactic(auto, unfolding(crate::specs::Outputs::with_outputs))]
fn with_outputs(d: Device, p: usize, x: u8) -> u8
    ensures { result ≡ with_outputs d p x }
{
    if p == 0 {
        return x;
    }
    if p == 1 {
        let low = port::stand(d.version, d.counters[1], false, x);
        return port::stand(d.version, d.counters[0], true, low);
    }
    port::stand(d.version, d.counters[2], false, x)
}

// The value that port p puts out.
#[tactic(auto, unfolding(rules::specs::PortData::value_at, crate::specs::Outputs::with_outputs))]
fn value_at(d: Device, p: usize) -> u8
    ensures { result ≡ value_at d p }
{
    let x = port_at(d, p).output;
    if outputs_at(d, p) {
        return x;
    }
    let v = with_outputs(d, p, x);
    if p < 2 {
        return v;
    }
    handshake::shown(d, v)
}

// A port with what is in effect, and the value that it puts out.
#[derive(Clone, Copy)]
struct Face {
    port: Port,
    value: u8,
}

// Port p, where a port has a handshake.
fn handshake_face(d: Device, p: usize) -> Face
    ensures { (result.port ≡ effective_at d p) × (result.value ≡ value_at d p) }
{
    Face {
        port: handshake::effective(d, p),
        value: value_at(d, p),
    }
}

#[tactic(auto, unfolding(rules::specs::PortData::pins_at))]
pub fn pins_at(d: Device, p: usize) -> u8
    ensures { result ≡ pins_at d p }
{
    let enabled = port_enabled(d, p);
    if handshake::any(d) {
        // The copy is made here, so that the way without handshakes makes none; so below.
        let e = d;
        let f = handshake_face(e, p);
        return port::pins(enabled, f.port, f.value);
    }
    let q = port_at(d, p);
    port::pins(enabled, q, with_outputs(d, p, q.output))
}

// Where no port has a handshake: the path value of port p, whose input's pin shows the outside level.
// Stays: tried as one function with the way of handshakes, and `trace` took 2.84 times plain C, where 2.5 is the bar (docs/COSTS.md, "Speed").
#[tactic(auto, unfolding(rules::specs::PortData::path_at, rules::specs::PortData::pins_at))]
fn own_path(d: Device, p: usize) -> u8
    requires { (handshakes (pattern_at d 0) || handshakes (pattern_at d 1)) ≡ false }
    ensures { result ≡ path_at d p }
{
    let q = port_at(d, p);
    port::path(q, q.outside, with_outputs(d, p, q.output))
}

#[tactic(auto, unfolding(rules::specs::PortData::path_at, rules::specs::PortData::pins_at))]
pub fn path_at(d: Device, p: usize) -> u8
    ensures { result ≡ path_at d p }
{
    if handshake::any(d) {
        let e = d;
        let f = handshake_face(e, p);
        let r = f.port;
        return port::path(r, r.outside, f.value);
    }
    own_path(d, p)
}

#[tactic(auto, unfolding(rules::specs::PortData::seen_at))]
pub fn seen_at(d: Device, p: usize) -> u8
    ensures { result ≡ seen_at d p }
{
    let q = effective_at(d, p);
    port::seen(port_enabled(d, p), q, path_at(d, p))
}

// What a step compares: the path values of ports B and C, which have the counters' lines, and what the patterns of A and B see.
#[derive(Clone, Copy)]
pub struct Looks {
    pub b: u8,
    pub c: u8,
    pub seen_a: u8,
    pub seen_b: u8,
}

// Where no port has a handshake: what port p, with that path value, sees.
// Stays: tried as one function with the way of handshakes, and `trace` took 2.84 times plain C, where 2.5 is the bar (docs/COSTS.md, "Speed").
#[tactic(auto, unfolding(rules::specs::PortData::seen_at))]
fn own_seen(d: Device, p: usize, path: u8) -> u8
    requires { ((handshakes (pattern_at d 0) || handshakes (pattern_at d 1)) ≡ false) × (path ≡ path_at d p) }
    ensures { result ≡ seen_at d p }
{
    let q = port_at(d, p);
    port::seen(port_enabled(d, p), q, path)
}

// Stays: tried as one function with the way of handshakes, and `trace` took 2.84 times plain C, where 2.5 is the bar (docs/COSTS.md, "Speed").
fn own_looks(d: Device) -> Looks
    requires { (handshakes (pattern_at d 0) || handshakes (pattern_at d 1)) ≡ false }
    ensures { result ≡ looks_of d }
{
    let a = own_path(d, 0);
    let b = own_path(d, 1);
    Looks {
        b,
        c: own_path(d, 2),
        seen_a: own_seen(d, 0, a),
        seen_b: own_seen(d, 1, b),
    }
}

fn all_looks(d: Device) -> Looks
    ensures { result ≡ looks_of d }
{
    Looks {
        b: path_at(d, 1),
        c: path_at(d, 2),
        seen_a: seen_at(d, 0),
        seen_b: seen_at(d, 1),
    }
}

pub fn look(d: Device) -> Looks
    ensures { result ≡ looks_of d }
{
    if handshake::any(d) {
        let e = d;
        return all_looks(e);
    }
    own_looks(d)
}

#[tactic(auto, unfolding(rules::specs::PortData::data_at))]
pub fn data_at(d: Device, p: usize) -> u8
    ensures { result ≡ data_at d p }
{
    if p == 2 {
        return port::seen(
            port_enabled(d, p),
            effective_at(d, p),
            port::level(port_at(d, p), pins_at(d, p)),
        );
    }
    if inputs_at(d, p) {
        return front_at(d, p);
    }
    seen_at(d, p)
}
