// Body 1: register bytes by address.
ghost use Rattle.std.specs.Prelude.{◌≡◌, true, false, [], ◌∷◌};
ghost use Rattle.basics.specs.Byte.{byte_in};
ghost use Rattle.rules.specs.Registers.{port_command_of};
ghost use Rattle.rules.specs.Handshakes.{irf_of, ore_of};
ghost use Rattle.bodies.specs.Written.{registers_from, registers_body};

use rules::{Device, Pattern, Source, Transfer};

// 08 or 09: the command register of a port, with what it holds.
fn port_command(s: Source, q: Pattern, t: Transfer) -> u8
    ensures { result ≡ port_command_of s q (ore_of q t) (irf_of q t) }
{
    sources::port_command(s, q, ports::ore(q, t), ports::irf(q, t))
}

// 08-0C: commands.
#[tactic(auto, unfolding(bodies::specs::Written::registers_from, bodies::specs::Written::saved_byte, rules::specs::Access::read_of, rules::specs::Registers::kind_of, rules::specs::Registers::kind_in, rules::specs::Registers::port_kind, rules::specs::Access::port_command, rules::specs::Access::counter_command))]
fn commands(d: Device) -> [u8; 5]
    ensures { result ≡ registers_from d 0x08 5 }
{
    [
        port_command(d.sources[Source::A], d.patterns[0], d.transfers[0]),
        port_command(d.sources[Source::B], d.patterns[1], d.transfers[1]),
        sources::counter_command(d.sources[Source::CT1], d.counters[0]),
        sources::counter_command(d.sources[Source::CT2], d.counters[1]),
        sources::counter_command(d.sources[Source::CT3], d.counters[2]),
    ]
}

// 10-15 or 16-1B: a word of each counter, high byte first.
fn words(a: u16, b: u16, c: u16) -> [u8; 6]
    ensures { result ≡ byte_in true a ∷ byte_in false a ∷ byte_in true b ∷ byte_in false b ∷ byte_in true c ∷ byte_in false c ∷ [] }
{
    [
        basics::byte_in(true, a),
        basics::byte_in(false, a),
        basics::byte_in(true, b),
        basics::byte_in(false, b),
        basics::byte_in(true, c),
        basics::byte_in(false, c),
    ]
}

// 00-0F: masters, vectors, Port C's settings, commands, output registers.
#[tactic(auto, unfolding(bodies::specs::Written::registers_from, bodies::specs::Written::saved_byte, rules::specs::Access::read_of, rules::specs::Registers::kind_of, rules::specs::Registers::kind_in))]
fn front(d: Device) -> [u8; 16]
    ensures { result ≡ registers_from d 0x00 16 }
{
    let c = d.ports[2];
    let v = d.vectors;
    let mut r = [0; 16];
    basics::lay(
        &mut r,
        0x00,
        &[
            d.master,
            d.config,
            v[0],
            v[1],
            v[2],
            c.polarity,
            c.direction,
            c.special,
        ],
    );
    basics::lay(&mut r, 0x08, &commands(d));
    basics::lay(
        &mut r,
        0x0D,
        &[d.ports[0].output, d.ports[1].output, c.output],
    );
    r
}

// 10-1F: frozen counts, constants, counter modes, and 0 for the current vector.
#[tactic(auto, unfolding(bodies::specs::Written::registers_from, bodies::specs::Written::saved_byte, rules::specs::Access::read_of, rules::specs::Registers::kind_of, rules::specs::Registers::kind_in))]
fn middle(d: Device) -> [u8; 16]
    ensures { result ≡ registers_from d 0x10 16 }
{
    let a = d.counters[0];
    let b = d.counters[1];
    let c = d.counters[2];
    let mut r = [0; 16];
    basics::lay(&mut r, 0, &words(a.frozen, b.frozen, c.frozen));
    basics::lay(&mut r, 6, &words(a.constant, b.constant, c.constant));
    basics::lay(&mut r, 12, &[a.mode, b.mode, c.mode, 0]);
    r
}

// 20-2F: Port A's own and B's.
#[tactic(auto, unfolding(bodies::specs::Written::registers_from, bodies::specs::Written::saved_byte, rules::specs::Access::read_of, rules::specs::Registers::kind_of, rules::specs::Registers::kind_in, rules::specs::Registers::port_kind))]
fn back(d: Device) -> [u8; 16]
    ensures { result ≡ registers_from d 0x20 16 }
{
    let a = d.ports[0];
    let b = d.ports[1];
    let p = d.patterns[0];
    let q = d.patterns[1];
    [
        p.mode,
        p.handshake,
        a.polarity,
        a.direction,
        a.special,
        p.polarity,
        p.transition,
        p.mask,
        q.mode,
        q.handshake,
        b.polarity,
        b.direction,
        b.special,
        q.polarity,
        q.transition,
        q.mask,
    ]
}

#[tactic(auto, unfolding(bodies::specs::Written::registers_body, bodies::specs::Written::registers_from))]
pub(crate) fn registers(d: Device) -> [u8; Device::REGISTERS]
    ensures { result ≡ registers_body d }
{
    let mut r = [0; Device::REGISTERS];
    basics::lay(&mut r, 0x00, &front(d));
    basics::lay(&mut r, 0x10, &middle(d));
    basics::lay(&mut r, 0x20, &back(d));
    r
}
