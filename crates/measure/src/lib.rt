// How long interrupts wait (W-201): the measure of a trace, beside the device.
#![tactic(auto)]

mod rises;
mod steps;
mod waits;

ghost use Rattle.std.specs.Prelude.{◌≡◌, true, false};
ghost use Rattle.rules.specs.Events.{code_of, event_of};
ghost use Rattle.measure.specs.Measure.{measure_start, past, measure_of, measured_of, row_of, table_of};

use rules::{Answer, Device, Event, Refusal};

// What a source's interrupts waited: since which clock of the trace a wait runs, if one does, and of the waits that were
// acknowledged how many, the least, the greatest and the sum, in PCLK clocks.
#[derive(Clone, Copy, Default, PartialEq, Eq)]
pub struct Wait {
    pub since: Option<u32>,
    pub acknowledged: u64,
    pub least: u64,
    pub greatest: u64,
    pub sum: u64,
}

// The measure of a trace so far: its clocks, and the waits of CT3, A, CT2, B, CT1.
#[derive(Clone, Copy, PartialEq, Eq)]
pub struct Measure {
    pub clocks: u32,
    pub waits: [Wait; 5],
}

// What the measuring call hands back.
#[derive(Clone, Copy)]
pub struct Measured {
    pub measure: Measure,
    pub device: Device,
    pub answer: Answer,
}

impl Measure {
    // The clocks that a trace has at most.
    pub const MOST_CLOCKS: u32 = 4000000000;

    // Where a trace begins.
    pub fn start() -> Self
        ensures { result ≡ measure_start }
    {
        Measure {
            clocks: 0,
            waits: [Wait::default(); 5],
        }
    }
}

fn row(w: Wait) -> [u64; 4]
    ensures { result ≡ row_of w }
{
    [w.acknowledged, w.least, w.greatest, w.sum]
}

// The table: rows CT3, A, CT2, B, CT1; acknowledged, least, greatest, sum.
pub fn table(m: Measure) -> [[u64; 4]; 5]
    ensures { result ≡ table_of m }
{
    m.waits.map(row)
}

// Whether a T would take the trace's clocks past the most.
fn is_past(m: Measure, e: Event) -> bool
    ensures { result ≡ past m e }
{
    (e.kind == Event::T) & ((Measure::MOST_CLOCKS as u64) < (m.clocks as u64) + (e.a as u64))
}

// Such a T: the lines as they stand are those of a T of no clocks.
#[tactic(auto, unfolding(rules::specs::Refusals::refusal_number))]
fn too_long(measure: Measure, device: Device, e: Event) -> Measured
    requires { past measure e ≡ true }
    ensures { result ≡ measured_of measure device e }
{
    let none = Event {
        kind: Event::T,
        a: 0,
        b: 0,
        c: 0,
    };
    let mut answer = event::event(device, none).answer;
    if answer.code == 0 {
        answer.code = Refusal::TooLong.number();
    }
    Measured {
        measure,
        device,
        answer,
    }
}

// The measure after an accepted event, which leaves the record f.
// Stays: f is the record that the event call left, handed on so that its clocks are not run twice; the definition runs them (measure/Measure.ticked).
#[tactic(auto, unfolding(crate::specs::Measure::measure_of))]
fn accepted(m: Measure, d: Device, e: Event, f: Device) -> Measure
    requires { (code_of d e ≡ 0) × (past m e ≡ false) × (f ≡ (event_of d e).device) }
    ensures { result ≡ measure_of m d e }
{
    if e.kind == Event::T {
        return steps::ticked(e.a, d, f, m);
    }
    if e.kind == Event::K {
        return steps::taken(d, m);
    }
    steps::stepped(e, d, f, m)
}

// The event call, measured: any measure, any record and any event.
pub fn event(m: Measure, d: Device, e: Event) -> Measured
    ensures { result ≡ measured_of m d e }
{
    if is_past(m, e) {
        return too_long(m, d, e);
    }
    let o = event::event(d, e);
    if o.answer.code == 0 {
        return Measured {
            measure: accepted(m, d, e, o.device),
            device: o.device,
            answer: o.answer,
        };
    }
    Measured {
        measure: m,
        device: o.device,
        answer: o.answer,
    }
}
