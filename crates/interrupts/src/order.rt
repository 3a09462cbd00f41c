// The order of the five sources: who waits, who is served, who comes first.
ghost use Rattle.std.specs.Prelude.{◌≡◌};
ghost use Rattle.rules.specs.Registers.{mie};
ghost use Rattle.rules.specs.Interrupts.{first, served, pending, pending_counter, requester};
ghost use Rattle.interrupts.specs.Order.{of_five};

use crate::mie;
use basics::Place;
use rules::{Device, Source};

// The highest requester: where the master bits let sources request, the first that waits, unless it or one above it is served.
pub fn requester_of(d: Device) -> Option<Place<5>>
    ensures { result ≡ of_five (requester d) }
{
    if !(mie(d) & d.iei) {
        return None;
    }
    let k = Place::of(d.sources.iter().position(|s| s.ius | (s.ie & s.ip))?)?;
    if d.sources[k.index()].ius {
        return None;
    }
    Some(k)
}

// Whether any source has IUS.
pub(crate) fn is_served(d: Device) -> bool
    ensures { result ≡ served d 4 }
{
    d.sources.iter().any(|s| s.ius)
}

// The highest with IP and IE.
pub(crate) fn pending_first(d: Device) -> Option<Place<5>>
    ensures { result ≡ of_five (first (pending d)) }
{
    Place::of(d.sources.iter().position(|s| s.ie & s.ip)?)
}

// The highest counter with IP and IE. Counters have the even places.
pub(crate) fn pending_counter(d: Device) -> Option<Place<5>>
    ensures { result ≡ of_five (pending_counter d) }
{
    let counters = [
        d.sources[Source::CT3],
        d.sources[Source::CT2],
        d.sources[Source::CT1],
    ];
    Place::of(2 * counters.iter().position(|s| s.ie & s.ip)?)
}
