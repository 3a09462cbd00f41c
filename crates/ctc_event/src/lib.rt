// The event call of the CTC and its end of service, by value: any record and any event, to an answer beside the record.
#![tactic(auto)]

mod channels;
mod effects;
mod serving;

ghost use Rattle.std.specs.Prelude.{◌≡◌};
ghost use Rattle.rules.specs.Refusals.{code_in};
ghost use Rattle.ctc_rules.specs.Interrupts.{lines_ctc};
ghost use Rattle.ctc_rules.specs.Events.{no_channel, too_large_ctc, code_ctc, outcome_ctc, unsound_ctc, event_ctc, end_of_service};

use ctc_rules::{Ctc, CtcAnswer, CtcEffect};
use rules::{Event, Lines, Outcome, Refusal};

#[tactic(auto, unfolding(ctc_rules::specs::Events::no_channel))]
fn has_no_channel(e: Event) -> bool
    ensures { result ≡ no_channel e }
{
    ((e.kind == Event::W) | (e.kind == Event::R)) & (3 < e.a)
}

#[tactic(auto, unfolding(ctc_rules::specs::Events::too_large_ctc))]
fn is_too_large(e: Event) -> bool
    ensures { result ≡ too_large_ctc e }
{
    ((e.kind == Event::W) & (255 < e.b))
        | ((e.kind == Event::P) & (255 < e.a))
        | ((e.kind == Event::E) & (1 < e.a))
}

// Why an event is refused, in the order of the refusals.
#[tactic(auto, unfolding(ctc_rules::specs::Events::code_ctc, rules::specs::Events::unknown, rules::specs::Refusals::refusal_number, rules::specs::Refusals::code_in))]
fn refused(d: Ctc, e: Event) -> Result<(), Refusal>
    ensures { code_in result ≡ code_ctc d e }
{
    if !ctc_rules::sound(d) {
        return Err(Refusal::Unsound);
    }
    if 6 < e.kind {
        return Err(Refusal::Unknown);
    }
    if has_no_channel(e) {
        return Err(Refusal::NoRegister);
    }
    if is_too_large(e) {
        return Err(Refusal::TooLarge);
    }
    if (e.kind == Event::K) & serving::requester(d).is_none() {
        return Err(Refusal::NoRequester);
    }
    Ok(())
}

// The answer to a record that is not sound.
#[tactic(auto, unfolding(rules::specs::Refusals::refusal_number))]
fn unsound(device: Ctc) -> Outcome<Ctc, CtcAnswer>
    ensures { result ≡ unsound_ctc device }
{
    Outcome {
        device,
        answer: CtcAnswer {
            code: Refusal::Unsound.number(),
            ..CtcAnswer::default()
        },
    }
}

// An answer with the lines after the event.
// Stays: the code is a number, as the answer has it (ctc_rules/Events.outcome_ctc).
#[tactic(auto, unfolding(ctc_rules::specs::Events::outcome_ctc, ctc_rules::specs::Interrupts::int_ctc))]
fn outcome(code: u8, f: CtcEffect) -> Outcome<Ctc, CtcAnswer>
    ensures { result ≡ outcome_ctc code f }
{
    let d = f.device;
    // Stays: tried with the field itself in the literal, and the check refused it: a field that is an array goes into a literal by a name of its own.
    let zeros = f.zeros;
    Outcome {
        device: d,
        answer: CtcAnswer {
            code,
            value: f.value,
            levels: d.levels,
            int: serving::requester(d).is_some(),
            ieo: serving::ieo(d),
            zeros,
        },
    }
}

// Any record and any event, to an answer beside the record.
#[tactic(auto, unfolding(ctc_rules::specs::Events::event_ctc, rules::specs::Refusals::refusal_number, rules::specs::Refusals::code_in))]
pub fn event(d: Ctc, e: Event) -> Outcome<Ctc, CtcAnswer>
    ensures { result ≡ event_ctc d e }
{
    match refused(d, e) {
        Ok(()) => outcome(0, effects::effect_of(d, e)),
        Err(Refusal::Unsound) => unsound(d),
        Err(refusal) => outcome(refusal.number(), effects::plain(d, 0)),
    }
}

// The end of service of the highest channel in service, if there is one.
#[tactic(auto, unfolding(ctc_rules::specs::Events::end_of_service))]
pub fn end_of_service(d: Ctc) -> Outcome<Ctc, CtcAnswer>
    ensures { result ≡ end_of_service d }
{
    if ctc_rules::sound(d) {
        return outcome(0, effects::plain(serving::released(d), 0));
    }
    unsound(d)
}

// INT, IEO and the highest requester's place, without an event.
#[tactic(auto, unfolding(ctc_rules::specs::Interrupts::lines_ctc, ctc_rules::specs::Interrupts::int_ctc))]
pub fn lines(d: Ctc) -> Lines
    ensures { result ≡ lines_ctc d }
{
    Lines {
        int: serving::requester(d).is_some(),
        ieo: serving::ieo(d),
        place: serving::place(d),
    }
}
