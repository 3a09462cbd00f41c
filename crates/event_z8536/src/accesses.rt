// Four addresses: the register that an access goes to, and what becomes of the pointer.
ghost use Rattle.std.specs.Prelude.{◌≡◌};
ghost use Rattle.z8536.specs.Z8536.{accesses as accesses_of, controls as controls_of, register_of, at_register, points, ends, after_core, no_address, no_pointer};

use rules::{Device, Event, Outcome};
use z8536::Z8536;

// The address of control; below it are the data of Port C, B and A.
const CONTROL: u32 = 3;

fn accesses(e: Event) -> bool
    ensures { result ≡ accesses_of e }
{
    (e.kind == Event::W) | (e.kind == Event::R)
}

fn controls(e: Event) -> bool
    ensures { result ≡ controls_of e }
{
    accesses(e) & (e.a == CONTROL)
}

#[tactic(auto, unfolding(z8536::specs::Z8536::register_of))]
fn register_of(z: Z8536, a: u32) -> u32
    ensures { result ≡ register_of z a }
{
    match a {
        0 => 0x0F,
        1 => 0x0E,
        2 => 0x0D,
        _ if z.core.reset() => 0x00,
        _ => z.pointer as u32,
    }
}

// The Z8036 event at that register.
#[tactic(auto, unfolding(z8536::specs::Z8536::at_register))]
pub(crate) fn at_register(z: Z8536, e: Event) -> Event
    ensures { result ≡ at_register z e }
{
    if accesses(e) {
        return Event {
            a: register_of(z, e.a),
            ..e
        };
    }
    e
}

// Whether a control write sets the pointer.
#[tactic(auto, unfolding(z8536::specs::Z8536::points))]
pub(crate) fn points(z: Z8536, e: Event) -> bool
    ensures { result ≡ points z e }
{
    (e.kind == Event::W) & (e.a == CONTROL) & !z.pointed & !z.core.reset()
}

// Whether an access with this code ends the pointer state.
// Stays: the code is a number, as the answer has it (z8536/Z8536.ends).
#[tactic(auto, unfolding(z8536::specs::Z8536::ends))]
fn ends(e: Event, code: u8) -> bool
    ensures { result ≡ ends e code }
{
    controls(e) & matches!(code, 0 | 3 | 4 | 10 | 11)
}

// The record after what came of an event in the core.
#[tactic(auto, unfolding(z8536::specs::Z8536::after_core))]
pub(crate) fn after_core(z: Z8536, e: Event, o: Outcome<Device>) -> Z8536
    ensures { result ≡ after_core z e o }
{
    let d = o.device;
    if d.reset() {
        return Z8536 {
            core: d,
            pointer: 0,
            pointed: false,
        };
    }
    Z8536 {
        core: d,
        pointer: z.pointer,
        pointed: z.pointed & !ends(e, o.answer.code),
    }
}

#[tactic(auto, unfolding(z8536::specs::Z8536::no_address))]
pub(crate) fn has_no_address(e: Event) -> bool
    ensures { result ≡ no_address e }
{
    accesses(e) & (CONTROL < e.a)
}

#[tactic(auto, unfolding(z8536::specs::Z8536::no_pointer))]
pub(crate) fn has_no_pointer(e: Event) -> bool
    ensures { result ≡ no_pointer e }
{
    Device::REGISTERS <= (e.b % 64) as usize
}
