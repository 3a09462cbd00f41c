// The direct effect of a write to the register at an address.
#![tactic(auto)]

mod data;

ghost use Rattle.std.specs.Prelude.{◌≡◌, ◌<◌};
ghost use Rattle.rules.specs.Registers.{kind_of};
ghost use Rattle.rules.specs.Counters.{enabled_by};
ghost use Rattle.rules.specs.Access.{master_written, kept_by, config_written, port_commanded, counter_commanded, data_written, written_of};
ghost use Rattle.registers.specs.Place.{place, places};

use basics::Place;
use rules::{Counter, Device, Kind, Source, Transfer};

#[tactic(auto, unfolding(rules::specs::Access::master_written))]
fn write_master(d: Device, b: u8) -> Device
    ensures { result ≡ master_written d b }
{
    if b % 2 == 1 {
        return record::reset(d);
    }
    Device { master: b, ..d }
}

// A counter whose enable is written.
#[tactic(auto, unfolding(rules::specs::Counters::enabled_by))]
fn enable(v: bool, c: Counter) -> Counter
    ensures { result ≡ enabled_by v c }
{
    if v {
        return c;
    }
    Counter {
        cip: false,
        half: false,
        pulse: false,
        ..c
    }
}

// What a port holds, where its enable is written.
#[tactic(auto, unfolding(rules::specs::Access::kept_by))]
fn keep(v: bool, t: Transfer) -> Transfer
    ensures { result ≡ kept_by v t }
{
    if v { t } else { Transfer::default() }
}

#[tactic(auto, unfolding(rules::specs::Access::config_written))]
fn write_config(d: Device, b: u8) -> Device
    ensures { result ≡ config_written d b }
{
    let mut e = d;
    e.config = b;
    e.counters = [
        enable(levels::counter_on(b, 0), d.counters[0]),
        enable(levels::counter_on(b, 1), d.counters[1]),
        enable(levels::counter_on(b, 2), d.counters[2]),
    ];
    e.transfers = [
        keep(levels::port_on(b, 0), d.transfers[0]),
        keep(levels::port_on(b, 1), d.transfers[1]),
    ];
    e
}

#[tactic(auto, unfolding(rules::specs::Access::port_commanded))]
fn command_port(d: Device, p: Place<2>, b: u8) -> Device
    ensures { result ≡ port_commanded d p b }
{
    let i = p.index();
    let k = Source::of_port(i);
    let mut e = d;
    e.patterns[i].ioe = b % 2 == 1;
    e.sources[k] = sources::command(d.sources[k], b / 32);
    e.transfers[i].pair = d.transfers[i].pair & !((b / 32 == 1) | (b / 32 == 5));
    e
}

#[tactic(auto, unfolding(rules::specs::Access::counter_commanded))]
fn command_counter(d: Device, i: Place<3>, b: u8) -> Device
    ensures { result ≡ counter_commanded d i b }
{
    let n = i.index();
    let k = Source::of_counter(n);
    let mut e = d;
    e.counters[n] = counters::command(levels::counter_on(d.config, n), b, d.counters[n]);
    e.sources[k] = sources::command(d.sources[k], b / 32);
    e
}

#[tactic(auto, unfolding(rules::specs::Access::data_written))]
fn write_data(d: Device, p: Place<3>, b: u8) -> Device
    ensures { result ≡ data_written d p b }
{
    let p = p.index();
    if levels::outputs_at(d, p) & levels::port_enabled(d, p) {
        return moves::stored(d, p, b);
    }
    let mut e = d;
    e.ports[p] = data::put(d.ports[p], levels::direction_at(d, p), p, b);
    e
}

// The table of the registers, an arm for each. It writes one record in place: arms that each return one took twice the instructions.
#[tactic(auto, unfolding(rules::specs::Access::written_of))]
fn write_kind(d: Device, k: Kind, b: u8) -> Device
    requires { place k < places k }
    ensures { result ≡ written_of d k b }
{
    let mut e = d;
    match k {
        Kind::Master => e = write_master(d, b),
        Kind::Config => e = write_config(d, b),
        Kind::Vector(v) => e.vectors[v] = b,
        Kind::Polarity(p) => e.ports[p].polarity = data::keep(p, b),
        Kind::Direction(p) => e.ports[p].direction = data::keep(p, b),
        Kind::Special(p) => e.ports[p].special = data::keep(p, b),
        Kind::PortCommand(p) => e = command_port(d, Place { at: p }, b),
        Kind::CounterCommand(i) => e = command_counter(d, Place { at: i }, b),
        Kind::Data(p) => e = write_data(d, Place { at: p }, b),
        Kind::Current(_, _) => {}
        Kind::Constant(i, high) => {
            e.counters[i].constant = basics::with_byte(high, d.counters[i].constant, b);
        }
        Kind::CounterMode(i) => e.counters[i].mode = b,
        Kind::CurrentVector => {}
        Kind::PortMode(p) => {
            e.patterns[p].mode = b;
            e.transfers[p] = Transfer::default();
        }
        Kind::Handshake(p) => {
            e.patterns[p].handshake = b;
            e.transfers[p] = Transfer::default();
        }
        Kind::PatternPolarity(p) => e.patterns[p].polarity = b,
        Kind::Transition(p) => e.patterns[p].transition = b,
        Kind::Mask(p) => e.patterns[p].mask = b,
        Kind::Absent => {}
    }
    e
}

// The record after the direct effect of a write.
pub fn write(d: Device, address: u32, b: u8) -> Device
    ensures { result ≡ written_of d (kind_of address) b }
{
    write_kind(d, registers::kind_of(address), b)
}
