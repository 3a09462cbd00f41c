// What several crates ask of one port or its pattern, by masks over the whole byte. The laws of all such masks are in proofs/.
#![tactic(auto)]

ghost use Rattle.std.specs.Prelude.{◌≡◌};
ghost use Rattle.basics.specs.Byte.{bit, byte_of};
ghost use Rattle.rules.specs.PortData.{catches_at};
ghost use Rattle.rules.specs.Patterns.{on_at, hit_at, highest_of, highest_match};
ghost use Rattle.rules.specs.Handshakes.{inputs, outputs, handshakes, depth, irf_of, ore_of, ready_of, available_of};

use rules::{Pattern, Port, Transfer};

// A bit at all eight places: 255 or 0.
#[tactic(auto, unfolding(basics::specs::Byte::byte_of))]
pub fn spread(on: bool) -> u8
    ensures { result ≡ byte_of (λ k. on) }
{
    if on { 255 } else { 0 }
}

// The bits that have a catcher.
#[tactic(auto, unfolding(rules::specs::PortData::catches_at))]
pub fn places(enabled: bool, q: Port) -> u8
    ensures { result ≡ byte_of (catches_at enabled q) }
{
    spread(enabled) & q.direction & q.special
}

// The bits that are on.
#[tactic(auto, unfolding(rules::specs::Patterns::on_at))]
pub fn on(p: Pattern) -> u8
    ensures { result ≡ byte_of (on_at p) }
{
    p.mask | p.transition
}

// The bits whose condition holds.
// Stays: what a pattern saw before and after, as the definitions take them; a struct of two bytes would be made here and there and taken apart again.
#[tactic(auto, unfolding(rules::specs::Patterns::hit_at))]
pub fn hits(p: Pattern, before: u8, after: u8) -> u8
    ensures { result ≡ byte_of (hit_at p before after) }
{
    let level = (after ^ p.polarity) ^ 255;
    let edges = (before ^ after) & p.transition;
    (level & p.mask & (p.transition ^ 255)) | (edges & (p.mask ^ 255)) | (edges & p.mask & level)
}

// The number of the highest bit that is 1, or 0.
fn highest_bit(b: u8) -> u8
    ensures { result ≡ highest_of (bit b) }
{
    7 - (b | 1).leading_zeros() as u8
}

// The number of the highest bit that matches, or 0.
#[tactic(auto, unfolding(rules::specs::Patterns::highest_match))]
pub fn highest(enabled: bool, p: Pattern, seen: u8) -> u8
    ensures { result ≡ highest_match enabled p seen }
{
    highest_bit(spread(enabled) & hits(p, seen, seen))
}

// Whether a port is an input port with handshake, an output port, or one of the two.
pub fn inputs(q: Pattern) -> bool
    ensures { result ≡ inputs q }
{
    q.mode / 64 == 1
}

pub fn outputs(q: Pattern) -> bool
    ensures { result ≡ outputs q }
{
    q.mode / 64 == 2
}

pub fn handshakes(q: Pattern) -> bool
    ensures { result ≡ handshakes q }
{
    inputs(q) | outputs(q)
}

// How many bytes a port with handshake has room for.
#[tactic(auto, unfolding(rules::specs::Handshakes::depth))]
pub fn depth(q: Pattern) -> u8
    ensures { result ≡ depth q }
{
    let sb = q.mode / 16 % 2 == 1;
    if sb { 1 } else { 2 }
}

// Whether its Input register is full.
#[tactic(auto, unfolding(rules::specs::Handshakes::irf_of))]
pub fn irf(q: Pattern, t: Transfer) -> bool
    ensures { result ≡ irf_of q t }
{
    inputs(q) & !(t.bytes == 0)
}

// Whether its Output register is empty.
#[tactic(auto, unfolding(rules::specs::Handshakes::ore_of))]
pub fn ore(q: Pattern, t: Transfer) -> bool
    ensures { result ≡ ore_of q t }
{
    outputs(q) & (t.bytes < depth(q))
}

// Whether an input port is ready.
#[tactic(auto, unfolding(rules::specs::Handshakes::ready_of))]
pub fn ready(enabled: bool, q: Pattern, t: Transfer) -> bool
    ensures { result ≡ ready_of enabled q t }
{
    enabled & (t.bytes < depth(q)) & !t.unfinished
}

// Whether an output port has a byte available, with its ACKIN.
#[tactic(auto, unfolding(rules::specs::Handshakes::available_of))]
pub fn available(enabled: bool, q: Pattern, t: Transfer, ackin: bool) -> bool
    ensures { result ≡ available_of enabled q t ackin }
{
    let strobed = q.handshake / 64 == 1;
    enabled & !(t.bytes == 0) & (strobed | (!t.unfinished & ackin))
}
