// The event call, by value: any record and any event, to an answer beside the record. An event is a code, an effect, an answer.
#![tactic(auto)]

mod effects;

ghost use Rattle.std.specs.Prelude.{◌≡◌};
ghost use Rattle.rules.specs.Events.{relit, unsound_answer, outcome_of, event_of};
ghost use Rattle.event.specs.Known.{known_of};

use rules::{Answer, Device, Effect, Event, Outcome, Refusal};

// The answer to a record that is not sound.
// Stays: the twin is of the other device; one for both would be a public call of `rules` for one literal.
#[tactic(auto, unfolding(rules::specs::Refusals::refusal_number))]
fn unsound(d: Device) -> Outcome<Device>
    ensures { result ≡ record { device = d; answer = unsound_answer } }
{
    Outcome {
        device: d,
        answer: Answer {
            code: Refusal::Unsound.number(),
            ..Answer::default()
        },
    }
}

// An answer with the lines after the event, which are worked out once.
// Stays: the code is a number, as the answer has it (rules/Events.outcome_of).
#[tactic(auto, unfolding(rules::specs::Events::outcome_of, rules::specs::Events::answer_of, rules::specs::Events::relit))]
fn outcome(code: u8, f: Effect) -> Outcome<Device>
    ensures { result ≡ outcome_of code (relit f) }
{
    let d = interrupts::relined(f.device);
    Outcome {
        device: d,
        answer: Answer {
            code,
            value: f.value,
            a: levels::pins_at(d, 0),
            b: levels::pins_at(d, 1),
            c: levels::pins_at(d, 2),
            int: d.lines.int,
            ieo: d.lines.ieo,
            report: f.report,
        },
    }
}

// Any record and any event, to an answer beside the record.
#[tactic(auto, unfolding(rules::specs::Events::event_of))]
pub fn event(d: Device, e: Event) -> Outcome<Device>
    ensures { result ≡ event_of d e }
{
    match refusals::admit(d, e) {
        Ok(()) => outcome(0, effects::effect_of(d, e)),
        Err(r) if r == Refusal::Unsound => unsound(d),
        Err(r) => outcome(r.number(), effects::effect(d, 0)),
    }
}

// The same of a record that is known to be sound, as every record is that an event of a sound one left: nothing asks again whether it is.
#[tactic(auto, unfolding(crate::specs::Known::known_of, rules::specs::Events::effect_of))]
pub fn known(d: Device, e: Event) -> Outcome<Device>
    ensures { result ≡ known_of d e }
{
    if let Err(r) = refusals::admit_known(d, e) {
        return outcome(r.number(), effects::effect(d, 0));
    }
    if e.kind == Event::W {
        return outcome(0, effects::write_effect(d, e.a, e.b as u8));
    }
    outcome(0, effects::effect_of(d, e))
}
