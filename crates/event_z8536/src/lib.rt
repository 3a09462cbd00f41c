// The event call of the Z8536, by value: any record and any event, to an answer beside the record.
#![tactic(auto)]

mod accesses;

ghost use Rattle.std.specs.Prelude.{◌≡◌};
ghost use Rattle.rules.specs.Events.{unsound_answer};
ghost use Rattle.z8536.specs.Z8536.{stands, pointing, accessed, event_z8536};

use rules::{Answer, Event, Outcome, Refusal, Report};
use z8536::Z8536;

// The answer to a record that is not sound.
// Stays: the twin is of the other device; one for both would be a public call of `rules` for one literal.
#[tactic(auto, unfolding(rules::specs::Refusals::refusal_number))]
fn unsound(z: Z8536) -> Outcome<Z8536>
    ensures { result ≡ record { device = z; answer = unsound_answer } }
{
    Outcome {
        device: z,
        answer: Answer {
            code: Refusal::Unsound.number(),
            ..Answer::default()
        },
    }
}

// An answer with nothing done in the core.
// Stays: the code is a number, as the answer has it (z8536/Z8536.stands).
#[tactic(auto, unfolding(z8536::specs::Z8536::stands, rules::specs::Events::answer_of))]
fn stands(code: u8, z: Z8536) -> Outcome<Z8536>
    ensures { result ≡ stands code z }
{
    let d = z.core;
    Outcome {
        device: z,
        answer: Answer {
            code,
            value: 0,
            a: levels::pins_at(d, 0),
            b: levels::pins_at(d, 1),
            c: levels::pins_at(d, 2),
            int: d.lines.int,
            ieo: d.lines.ieo,
            report: Report::default(),
        },
    }
}

// A control write that sets the pointer.
#[tactic(auto, unfolding(z8536::specs::Z8536::pointing, rules::specs::Refusals::refusal_number))]
fn point(z: Z8536, e: Event) -> Outcome<Z8536>
    ensures { result ≡ pointing z e }
{
    if 255 < e.b {
        return stands(Refusal::TooLarge.number(), z);
    }
    if accesses::has_no_pointer(e) {
        return stands(Refusal::NoRegister.number(), z);
    }
    stands(
        0,
        Z8536 {
            pointer: (e.b % 64) as u8,
            pointed: true,
            ..z
        },
    )
}

// The Z8036 event at that register.
#[tactic(auto, unfolding(z8536::specs::Z8536::accessed))]
fn access(z: Z8536, e: Event) -> Outcome<Z8536>
    ensures { result ≡ accessed z e }
{
    let o = event::event(z.core, accesses::at_register(z, e));
    Outcome {
        device: accesses::after_core(z, e, o),
        answer: o.answer,
    }
}

// Any record and any event, to an answer beside the record.
#[tactic(auto, unfolding(z8536::specs::Z8536::event_z8536, rules::specs::Refusals::refusal_number))]
pub fn event(z: Z8536, e: Event) -> Outcome<Z8536>
    ensures { result ≡ event_z8536 z e }
{
    if !z8536::sound(z) {
        return unsound(z);
    }
    if accesses::has_no_address(e) {
        return stands(Refusal::NoRegister.number(), z);
    }
    if accesses::points(z, e) {
        return point(z, e);
    }
    access(z, e)
}
