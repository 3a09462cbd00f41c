// The settings left to later requests: code 4, and "no code 4 setting" of a sound record.
ghost use Rattle.std.specs.Prelude.{◌≡◌, cond, ◌<◌, ◌==◌};
ghost use Rattle.rules.specs.Registers.{port_of, later_port_mode, later_handshake, later_priority, later_config, later_counter_mode, later};

use basics::Place;
use rules::Device;

// The last of the port types that are not left to later requests: version 1 has bit ports alone.
fn last_type(version: u8) -> u32
    ensures { result ≡ cond (version == 1) 0 2 }
{
    if version == 1 { 0 } else { 2 }
}

#[tactic(auto, unfolding(rules::specs::Registers::later_port_mode))]
pub(crate) fn later_port_mode(version: u8, b: u32) -> bool
    ensures { result ≡ later_port_mode version b }
{
    (last_type(version) < b / 64) | ((version == 1) & (b / 2 % 4 == 3)) | (b % 2 == 1)
}

// Whether the registers of a port with handshake hold a setting left to later requests together.
#[tactic(auto, unfolding(rules::specs::Registers::later_handshake))]
pub(crate) fn later_handshake(m: u32, h: u32) -> bool
    ensures { result ≡ later_handshake m h }
{
    let both = (m / 32 % 2 == 1) & (m / 16 % 2 == 1);
    let handshakes = (m / 64 == 1) | (m / 64 == 2);
    handshakes & (!(m / 2 % 8 == 0) | both | (1 < h / 64) | !(h / 8 % 8 == 0))
}

// Whether the registers of a bit port hold OR with priority-encoded vector, and a transition.
#[tactic(auto, unfolding(rules::specs::Registers::later_priority))]
pub(crate) fn later_priority(m: u32, t: u32) -> bool
    ensures { result ≡ later_priority m t }
{
    (m / 64 == 0) & (m / 2 % 4 == 3) & !(t == 0)
}

#[tactic(auto, unfolding(rules::specs::Registers::later_config))]
pub(crate) fn later_config(b: u32) -> bool
    ensures { result ≡ later_config b }
{
    b / 8 % 2 == 1
}

#[tactic(auto, unfolding(rules::specs::Registers::later_counter_mode))]
pub(crate) fn later_counter_mode(b: u32) -> bool
    ensures { result ≡ later_counter_mode b }
{
    b % 4 == 3
}

#[tactic(auto, unfolding(rules::specs::Registers::port_of))]
fn port_of(a: u32) -> Place<2>
    ensures { result ≡ port_of a }
{
    Place {
        at: if a < 0x28 { 0 } else { 1 },
    }
}

// Whether the byte b is a setting left to later requests at the address a of the device.
#[tactic(auto, unfolding(rules::specs::Registers::later))]
pub(crate) fn later(d: Device, a: u32, b: u32) -> bool
    ensures { result ≡ later d a b }
{
    let q = d.patterns[port_of(a).index()];
    let port_mode = later_port_mode(d.version, b)
        | later_handshake(b, q.handshake as u32)
        | later_priority(b, q.transition as u32);
    let handshake = later_handshake(q.mode as u32, b);
    let transition = later_priority(q.mode as u32, b);
    let config = later_config(b);
    let counter_mode = later_counter_mode(b);
    (((a == 0x20) | (a == 0x28)) & port_mode)
        | (((a == 0x21) | (a == 0x29)) & handshake)
        | (((a == 0x26) | (a == 0x2E)) & transition)
        | ((a == 0x01) & config)
        | ((0x1C <= a) & (a <= 0x1E) & counter_mode)
}
