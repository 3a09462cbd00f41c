// What a port keeps of a written byte, and a write of its data, by masks over the whole byte.
ghost use Rattle.std.specs.Prelude.{◌≡◌};
ghost use Rattle.basics.specs.Byte.{byte_of};
ghost use Rattle.rules.specs.Registers.{kept};
ghost use Rattle.rules.specs.PortData.{unprotected, written_data};

use rules::Port;

// What port p keeps of a byte: Port C four bits.
#[tactic(auto, unfolding(rules::specs::Registers::kept))]
pub(crate) fn keep(p: usize, b: u8) -> u8
    ensures { result ≡ kept p b }
{
    if p == 2 {
        return b % 16;
    }
    b
}

// The bits of a data write that are not protected.
#[tactic(auto, unfolding(rules::specs::PortData::unprotected, basics::specs::Byte::byte_of))]
fn opened(p: usize, b: u8) -> u8
    ensures { result ≡ byte_of (unprotected p b) }
{
    if p == 2 {
        return ((b / 16) ^ 255) & 15;
    }
    255
}

// A write of data to port p, with the direction that is in effect.
#[tactic(auto, unfolding(rules::specs::PortData::written_data))]
pub(crate) fn put(q: Port, direction: u8, p: usize, b: u8) -> Port
    ensures { result ≡ written_data q direction p b }
{
    let m = opened(p, b);
    let through = m & (direction ^ 255);
    Port {
        output: (b & through) | (q.output & (through ^ 255)),
        catcher: q.catcher & ((m & (b ^ 255)) ^ 255),
        ..q
    }
}
