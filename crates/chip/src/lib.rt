// Either device, a Z8036 or a Z8536, and its event call.
#![tactic(auto)]

mod sure;
mod vetted;

ghost use Rattle.std.specs.Prelude.{◌≡◌};
ghost use Rattle.chip.specs.Chips.{of_z8036, of_z8536, core_of, event_chip};

use rules::{Device, Event, Outcome};
pub use sure::{known, sound};
pub use vetted::Vetted;
use z8536::Z8536;

#[derive(Clone, Copy, PartialEq, Eq)]
pub enum Chip {
    Z8036(Device),
    Z8536(Z8536),
}

impl From<Device> for Chip {
    ghost from_gives = { λ d c. c ≡ of_z8036 d };

    fn from(device: Device) -> Self {
        Chip::Z8036(device)
    }
}

impl From<Z8536> for Chip {
    ghost from_gives = { λ z c. c ≡ of_z8536 z };

    fn from(device: Z8536) -> Self {
        Chip::Z8536(device)
    }
}

impl Chip {
    // The Z8036's record in it.
    pub fn core(self) -> Device
        ensures { result ≡ core_of self }
    {
        match self {
            Chip::Z8036(d) => d,
            Chip::Z8536(z) => z.core,
        }
    }
}

// Any record and any event, to an answer beside the record.
#[tactic(auto, unfolding(crate::specs::Chips::event_chip))]
pub fn event(c: Chip, e: Event) -> Outcome<Chip>
    ensures { result ≡ event_chip c e }
{
    match c {
        Chip::Z8036(d) => {
            let o = event::event(d, e);
            Outcome {
                device: Chip::Z8036(o.device),
                answer: o.answer,
            }
        }
        Chip::Z8536(z) => {
            let o = event_z8536::event(z, e);
            Outcome {
                device: Chip::Z8536(o.device),
                answer: o.answer,
            }
        }
    }
}
