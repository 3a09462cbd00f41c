// A device by value goes through the call that alters it where it stands: whoever calls this needs no walk by hand.
#![tactic(auto)]

ghost use Rattle.std.specs.Prelude.{◌≡◌};
ghost use Rattle.rules.specs.Events.{event_of};

use rules::{Device, Event, Outcome};

pub fn through(d: Device, e: Event) -> Outcome<Device>
    ensures { result ≡ event_of d e }
{
    let mut after = d;
    let answer = inplace::event_in_place(&mut after, e);
    Outcome {
        device: after,
        answer,
    }
}
