// The image of a Z8536: its core's, with a table of its own and a sixth body behind the others.
ghost use Rattle.std.specs.Prelude.{◌≡◌, ◌++◌, ◌≤◌, length, drop};
ghost use Rattle.rules.specs.Refusals.{refusal_number, code_in};
ghost use Rattle.z8536.specs.Z8536.{fresh_z8536};
ghost use Rattle.bodies.specs.Layout.{layout3, length_of};
ghost use Rattle.image.specs.Image.{restored_from};
ghost use Rattle.image.specs.Pointed.{image_z8536, save_code_z8536, saved_z8536, other_code, with_pointer, restored_z8536};

use crate::{Restored, contents};
use rules::{Device, Refusal};
use z8536::Z8536;

// The image of a record of version 2 and a pointer, into the first 102 bytes of a buffer.
#[tactic(auto, unfolding(bodies::specs::Written::pointer_body))]
fn write_z8536(z: Z8536, buf: &mut [u8])
    requires { (length_of layout3 ≤ length buf.old) × (z.core.version ≡ 2) }
    ensures { buf.new ≡ image_z8536 z ++ drop (length_of layout3) buf.old }
{
    crate::write_by(&contents::POINTED, z.core, buf);
    basics::lay(buf, 100, &[z.pointer, basics::weight(z.pointed, 1)]);
}

// Saves a Z8536 into the first 102 bytes of a buffer. Codes as for the Z8036: 9, then 7, else 0. A refused save leaves the buffer as
// it was.
// Stays: the twin in `ctc_image` has the same two tests, of another record and another length; one for both would take five arguments.
#[tactic(auto, unfolding(rules::specs::Refusals::code_in, rules::specs::Refusals::refusal_number))]
pub fn save_z8536(z: Z8536, buf: &mut [u8]) -> Result<(), Refusal>
    ensures { (code_in result ≡ save_code_z8536 z (length buf.old)) × (buf.new ≡ saved_z8536 z buf.old) }
{
    if !z8536::sound(z) {
        return Err(Refusal::Unsound);
    }
    if buf.len() < Z8536::IMAGE {
        return Err(Refusal::Length);
    }
    write_z8536(z, buf);
    Ok(())
}

// What refuses an image with another first byte.
#[tactic(auto, unfolding(crate::specs::Pointed::other_code, rules::specs::Refusals::refusal_number))]
fn other(s: &[u8]) -> Refusal
    ensures { refusal_number result ≡ other_code s.now }
{
    if s.len() < contents::OLD.len() {
        return Refusal::Length;
    }
    Refusal::Contents
}

// A core that was read, with the sixth body beside it.
#[tactic(auto, unfolding(crate::specs::Pointed::with_pointer, crate::specs::Image::restored_from, rules::specs::Refusals::refusal_number))]
fn with_pointer(core: Device, b: &[u8]) -> Result<Z8536, Refusal>
    ensures { restored_from result fresh_z8536 ≡ with_pointer (record { code = 0; device = core }) b.now }
{
    let state = basics::byte_at(b, 1);
    let z = Z8536 {
        core,
        pointer: basics::byte_at(b, 0),
        pointed: state == 1,
    };
    if 1 < state || !z8536::sound(z) {
        return Err(Refusal::Unsound);
    }
    Ok(z)
}

#[tactic(auto, unfolding(crate::specs::Pointed::restored_z8536, crate::specs::Image::restored_from))]
fn read(s: &[u8]) -> Result<Z8536, Refusal>
    ensures { restored_from result fresh_z8536 ≡ restored_z8536 s.now }
{
    if basics::byte_at(s, 0) != 3 {
        return Err(other(s));
    }
    let core = crate::read_by(2, &contents::POINTED, 2, s)?;
    with_pointer(core, &[basics::byte_at(s, 100), basics::byte_at(s, 101)])
}

// Restores a Z8536 from its image, with the codes of the Z8036's restore in their order. A refused restore gives the fresh device.
// Stays: the twin in `ctc_image` is one call too, of `Restored::of`, which both share.
pub fn restore_z8536(s: &[u8]) -> Restored<Z8536>
    ensures { result ≡ restored_z8536 s.now }
{
    Restored::of(read(s), Z8536::fresh())
}
