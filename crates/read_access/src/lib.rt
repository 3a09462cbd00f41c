// What the register at an address reads, and what the read leaves.
#![tactic(auto)]

ghost use Rattle.std.specs.Prelude.{◌≡◌, ◌<◌};
ghost use Rattle.rules.specs.Record.{counter_at};
ghost use Rattle.rules.specs.With.{with_counter};
ghost use Rattle.rules.specs.Registers.{kind_of};
ghost use Rattle.rules.specs.Counters.{thawed, shown};
ghost use Rattle.rules.specs.Access.{port_command, counter_command, read_of, reads_byte, after_read};
ghost use Rattle.registers.specs.Place.{place, places};

use basics::Place;
use rules::{Counter, Device, Kind, Source};

#[tactic(auto, unfolding(rules::specs::Access::port_command))]
fn port_command(d: Device, p: Place<2>) -> u8
    ensures { result ≡ port_command d p }
{
    let i = p.index();
    let q = d.patterns[i];
    let t = d.transfers[i];
    sources::port_command(
        d.sources[Source::of_port(i)],
        q,
        ports::ore(q, t),
        ports::irf(q, t),
    )
}

#[tactic(auto, unfolding(rules::specs::Access::counter_command))]
fn counter_command(d: Device, i: Place<3>) -> u8
    ensures { result ≡ counter_command d i }
{
    let n = i.index();
    sources::counter_command(d.sources[Source::of_counter(n)], d.counters[n])
}

// The count as it reads.
#[tactic(auto, unfolding(rules::specs::Counters::shown))]
fn show(c: Counter) -> u16
    ensures { result ≡ shown c }
{
    if c.rcc { c.frozen } else { c.count }
}

#[tactic(auto, unfolding(rules::specs::Access::read_of))]
fn read_kind(d: Device, k: Kind) -> u8
    requires { place k < places k }
    ensures { result ≡ read_of d k }
{
    match k {
        Kind::Master => d.master,
        Kind::Config => d.config,
        Kind::Vector(v) => interrupts::vector_read(d, v),
        Kind::Polarity(p) => d.ports[p].polarity,
        Kind::Direction(p) => d.ports[p].direction,
        Kind::Special(p) => d.ports[p].special,
        Kind::PortCommand(p) => port_command(d, Place { at: p }),
        Kind::CounterCommand(i) => counter_command(d, Place { at: i }),
        Kind::Data(p) => levels::data_at(d, p),
        Kind::Current(i, high) => basics::byte_in(high, show(d.counters[i])),
        Kind::Constant(i, high) => basics::byte_in(high, d.counters[i].constant),
        Kind::CounterMode(i) => d.counters[i].mode,
        Kind::CurrentVector => interrupts::current_vector(d),
        Kind::PortMode(p) => d.patterns[p].mode,
        Kind::Handshake(p) => d.patterns[p].handshake,
        Kind::PatternPolarity(p) => d.patterns[p].polarity,
        Kind::Transition(p) => d.patterns[p].transition,
        Kind::Mask(p) => d.patterns[p].mask,
        Kind::Absent => 0,
    }
}

// The byte that a register reads.
pub fn read(d: Device, address: u32) -> u8
    ensures { result ≡ read_of d (kind_of address) }
{
    read_kind(d, registers::kind_of(address))
}

// What the read of a low byte leaves of counter i.
#[tactic(auto, unfolding(rules::specs::Counters::thawed))]
fn thaw(d: Device, i: Place<3>) -> Device
    ensures { result ≡ with_counter d i (thawed (counter_at d i)) }
{
    let n = i.index();
    let mut e = d;
    e.counters[n].rcc = false;
    e.counters[n].frozen = 0;
    e
}

// Whether the read is of the data of an input port with handshake.
#[tactic(auto, unfolding(rules::specs::Access::reads_byte))]
fn reads_byte(d: Device, address: u32) -> bool
    ensures { result ≡ reads_byte d address }
{
    if (0x0D <= address) & (address <= 0x0E) {
        return levels::inputs_at(d, (address - 0x0D) as usize);
    }
    false
}

// The record after a read.
#[tactic(auto, unfolding(rules::specs::Access::after_read))]
pub fn after_read(d: Device, address: u32) -> Device
    ensures { result ≡ after_read d address }
{
    let low_byte = (0x10 <= address) & (address <= 0x15) & (address % 2 == 1);
    if low_byte {
        return thaw(
            d,
            Place {
                at: ((address - 0x10) / 2) as usize,
            },
        );
    }
    if reads_byte(d, address) {
        return moves::given(d, (address - 0x0D) as usize);
    }
    d
}
