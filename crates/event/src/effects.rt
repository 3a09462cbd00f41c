// What an accepted event does: the record, the value and the report.
ghost use Rattle.std.specs.Prelude.{◌≡◌, false, not, ◌&&◌, ◌==◌};
ghost use Rattle.rules.specs.Registers.{reset};
ghost use Rattle.rules.specs.Events.{too_large, effect as plain, write_effect, read_effect, outside_set, pins_effect, clocks_effect, acknowledge_effect, iei_effect, effect_of};

use rules::{Device, Effect, Event, Port, Report};

// With nothing to report.
pub(crate) fn effect(d: Device, v: u8) -> Effect
    ensures { result ≡ plain d v }
{
    Effect {
        device: d,
        value: v,
        report: Report::default(),
    }
}

// Whether the device is in reset and the register is not 00.
fn is_held(d: Device, a: u32) -> bool
    ensures { result ≡ (reset d && not (a == 0x00)) }
{
    d.reset() & !(a == 0x00)
}

#[tactic(auto, unfolding(rules::specs::Events::write_effect))]
pub(crate) fn write_effect(d: Device, a: u32, b: u8) -> Effect
    ensures { result ≡ write_effect d a b }
{
    if is_held(d, a) {
        return effect(d, 0);
    }
    effect(
        step::untimed(d, moves::moves(d, write_access::write(d, a, b))),
        0,
    )
}

#[tactic(auto, unfolding(rules::specs::Events::read_effect))]
fn read_effect(d: Device, a: u32) -> Effect
    ensures { result ≡ read_effect d a }
{
    if is_held(d, a) {
        return effect(d, 0);
    }
    effect(read_access::after_read(d, a), read_access::read(d, a))
}

// Other outside levels.
// Stays: the levels of A, B and C, as the definition takes them (rules/Events.outside_set); an array would be made for it and taken apart.
#[tactic(auto, unfolding(rules::specs::Events::outside_set))]
fn with_outside(d: Device, a: u8, b: u8, c: u8) -> Device
    ensures { result ≡ outside_set d a b c }
{
    let [qa, qb, qc] = d.ports;
    Device {
        ports: [
            Port { outside: a, ..qa },
            Port { outside: b, ..qb },
            Port { outside: c, ..qc },
        ],
        ..d
    }
}

// Stays: the levels of A, B and C, as the definition takes them (rules/Events.outside_set); an array would be made for it and taken apart.
#[tactic(auto, unfolding(rules::specs::Events::pins_effect))]
fn pins_effect(d: Device, a: u8, b: u8, c: u8) -> Effect
    ensures { result ≡ pins_effect d a b c }
{
    effect(
        step::untimed(d, moves::moves(d, with_outside(d, a, b, c))),
        0,
    )
}

#[tactic(auto, unfolding(rules::specs::Events::clocks_effect))]
fn clocks_effect(d: Device, n: u32) -> Effect
    ensures { result ≡ clocks_effect d n }
{
    let s = clocks::run(n, d);
    Effect {
        device: s.device,
        value: 0,
        report: s.report,
    }
}

#[tactic(auto, unfolding(rules::specs::Events::acknowledge_effect))]
fn acknowledge_effect(d: Device) -> Effect
    ensures { result ≡ acknowledge_effect d }
{
    effect(interrupts::acknowledged(d), interrupts::acknowledge(d))
}

#[tactic(auto, unfolding(rules::specs::Events::iei_effect))]
fn iei_effect(d: Device, v: u32) -> Effect
    ensures { result ≡ iei_effect d v }
{
    effect(Device { iei: v == 1, ..d }, 0)
}

// What an accepted event does, none of whose numbers is too large.
#[tactic(auto, unfolding(rules::specs::Events::effect_of))]
pub(crate) fn effect_of(d: Device, e: Event) -> Effect
    requires { too_large e ≡ false }
    ensures { result ≡ effect_of d e }
{
    match e.kind {
        // "Reset (X, or D0 written 1 to 00)"
        Event::X => write_effect(d, 0x00, 0x01),
        Event::W => write_effect(d, e.a, e.b as u8),
        Event::R => read_effect(d, e.a),
        Event::P => pins_effect(d, e.a as u8, e.b as u8, e.c as u8),
        Event::T => clocks_effect(d, e.a),
        Event::K => acknowledge_effect(d),
        _ => iei_effect(d, e.a),
    }
}
