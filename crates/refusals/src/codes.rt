// What refuses an event: a test for each refusal, in the paper's order.
ghost use Rattle.std.specs.Prelude.{◌≡◌, ◌&&◌, ◌==◌};
ghost use Rattle.rules.specs.Registers.{read_only, later};
ghost use Rattle.rules.specs.Interrupts.{requester};
ghost use Rattle.rules.specs.Refusals.{code_in};
ghost use Rattle.rules.specs.Events.{is_w, is_k, unknown, no_register, too_large, held, no_byte, no_room, code_of};
ghost use Rattle.refusals.specs.Known.{known_code};

use crate::settings;
use crate::soundness::sound;
use rules::{Device, Event, Refusal};

#[tactic(auto, unfolding(rules::specs::Events::unknown))]
fn is_unknown(e: Event) -> bool
    ensures { result ≡ unknown e }
{
    6 < e.kind
}

#[tactic(auto, unfolding(rules::specs::Events::no_register))]
fn has_no_register(e: Event) -> bool
    ensures { result ≡ no_register e }
{
    let a = e.a as usize;
    ((e.kind == Event::W) | (e.kind == Event::R)) & (Device::REGISTERS <= a)
}

#[tactic(auto, unfolding(rules::specs::Events::too_large))]
fn is_too_large(e: Event) -> bool
    ensures { result ≡ too_large e }
{
    ((e.kind == Event::W) & (255 < e.b))
        | ((e.kind == Event::P) & ((255 < e.a) | (255 < e.b) | (15 < e.c)))
        | ((e.kind == Event::E) & (1 < e.a))
}

#[tactic(auto, unfolding(rules::specs::Events::held))]
fn is_held(d: Device, e: Event) -> bool
    ensures { result ≡ held d e }
{
    d.reset() & (e.kind == Event::W) & !(e.a == 0x00)
}

#[tactic(auto, unfolding(rules::specs::Registers::read_only))]
fn is_read_only(e: Event) -> bool
    ensures { result ≡ (is_w e && read_only e.a) }
{
    (e.kind == Event::W) & (((0x10 <= e.a) & (e.a <= 0x15)) | (e.a == 0x1F))
}

fn is_later(d: Device, e: Event) -> bool
    ensures { result ≡ (is_w e && later d e.a e.b) }
{
    (e.kind == Event::W) && settings::later(d, e.a, e.b)
}

fn is_unrequested(d: Device, e: Event) -> bool
    ensures { result ≡ (is_k e && requester d == 5) }
{
    (e.kind == Event::K) && interrupts::requester_of(d).is_none()
}

// The read of the data of an input port that holds no byte.
fn has_no_byte(d: Device, e: Event) -> bool
    ensures { result ≡ no_byte d e }
{
    if (e.kind == Event::R) & (0x0D <= e.a) & (e.a <= 0x0E) {
        let p = (e.a - 0x0D) as usize;
        return ports::inputs(d.patterns[p]) & (d.transfers[p].bytes == 0);
    }
    false
}

// The write of the data of an output port that has no room.
fn has_no_room(d: Device, e: Event) -> bool
    ensures { result ≡ no_room d e }
{
    if (e.kind == Event::W) & (0x0D <= e.a) & (e.a <= 0x0E) {
        let p = (e.a - 0x0D) as usize;
        let q = d.patterns[p];
        return ports::outputs(q) & !ports::ore(q, d.transfers[p]);
    }
    false
}

// "Order: 9, 1, 2, 5, reset hold, 3, 4, 6.", 11 after 3, 10 after 11: from 1 on, of a record that is known to be sound.
#[tactic(auto, unfolding(crate::specs::Known::known_code, rules::specs::Refusals::code_in, rules::specs::Refusals::refusal_number))]
pub fn admit_known(d: Device, e: Event) -> Result<(), Refusal>
    ensures { code_in result ≡ known_code d e }
{
    if is_unknown(e) {
        return Err(Refusal::Unknown);
    }
    if has_no_register(e) {
        return Err(Refusal::NoRegister);
    }
    if is_too_large(e) {
        return Err(Refusal::TooLarge);
    }
    if is_held(d, e) {
        return Ok(());
    }
    if is_read_only(e) {
        return Err(Refusal::ReadOnly);
    }
    if has_no_byte(d, e) {
        return Err(Refusal::NoByte);
    }
    if has_no_room(d, e) {
        return Err(Refusal::NoRoom);
    }
    if is_later(d, e) {
        return Err(Refusal::Later);
    }
    if is_unrequested(d, e) {
        return Err(Refusal::NoRequester);
    }
    Ok(())
}

// The same, with 9 before them.
#[tactic(auto, unfolding(rules::specs::Events::code_of, crate::specs::Known::known_code, rules::specs::Refusals::code_in, rules::specs::Refusals::refusal_number))]
pub fn admit(d: Device, e: Event) -> Result<(), Refusal>
    ensures { code_in result ≡ code_of d e }
{
    if !sound(d) {
        return Err(Refusal::Unsound);
    }
    admit_known(d, e)
}
