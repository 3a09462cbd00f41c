// What kind each of the 48 registers is, by ranges of the address.
#![tactic(auto)]

ghost use Rattle.std.specs.Prelude.{◌≡◌};
ghost use Rattle.rules.specs.Registers.{port_kind, kind_of};

use rules::Kind;

// The kind of the register at r among the eight of Port A or B.
#[tactic(auto, unfolding(rules::specs::Registers::port_kind))]
fn port_kind(p: usize, r: usize) -> Kind
    ensures { result ≡ port_kind p r }
{
    match r {
        0 => Kind::PortMode(p),
        1 => Kind::Handshake(p),
        2 => Kind::Polarity(p),
        3 => Kind::Direction(p),
        4 => Kind::Special(p),
        5 => Kind::PatternPolarity(p),
        6 => Kind::Transition(p),
        _ => Kind::Mask(p),
    }
}

// The kind of the register at an address.
#[tactic(auto, unfolding(rules::specs::Registers::kind_of, rules::specs::Registers::kind_in, rules::specs::Registers::port_kind))]
pub fn kind_of(address: u32) -> Kind
    ensures { result ≡ kind_of address }
{
    let a = address as usize;
    match a {
        0x00 => Kind::Master,
        0x01 => Kind::Config,
        0x02..=0x04 => Kind::Vector(a - 0x02),
        0x05 => Kind::Polarity(2),
        0x06 => Kind::Direction(2),
        0x07 => Kind::Special(2),
        0x08..=0x09 => Kind::PortCommand(a - 0x08),
        0x0A..=0x0C => Kind::CounterCommand(a - 0x0A),
        0x0D..=0x0F => Kind::Data(a - 0x0D),
        0x10..=0x15 => Kind::Current((a - 0x10) / 2, a % 2 == 0),
        0x16..=0x1B => Kind::Constant((a - 0x16) / 2, a % 2 == 0),
        0x1C..=0x1E => Kind::CounterMode(a - 0x1C),
        0x1F => Kind::CurrentVector,
        0x20..=0x27 => port_kind(0, a - 0x20),
        0x28..=0x2F => port_kind(1, a - 0x28),
        _ => Kind::Absent,
    }
}
