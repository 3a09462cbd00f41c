// The calls on a CTC that the host lends: an event and the end of service alter it where it stands.
#![tactic(auto)]

ghost use Rattle.std.specs.Prelude.{◌≡◌};
ghost use Rattle.ctc_rules.specs.Events.{event_ctc, end_of_service};

use ctc_rules::{Ctc, CtcAnswer};
use rules::Event;

// The event call, with the same answer.
// Stays: its twin alters the other device; one for both would be a trait for three lines.
pub fn event_in_place(d: &mut Ctc, e: Event) -> CtcAnswer
    ensures { (result ≡ (event_ctc d.old e).answer) × (d.new ≡ (event_ctc d.old e).device) }
{
    let o = ctc_event::event(*d, e);
    *d = o.device;
    o.answer
}

// The end of service, with the same answer.
pub fn end_of_service_in_place(d: &mut Ctc) -> CtcAnswer
    ensures { (result ≡ (end_of_service d.old).answer) × (d.new ≡ (end_of_service d.old).device) }
{
    let o = ctc_event::end_of_service(*d);
    *d = o.device;
    o.answer
}
