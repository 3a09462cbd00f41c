// A device that was asked whether it is sound.
ghost use Rattle.std.specs.Prelude.{◌≡◌, true};
ghost use Rattle.chip.specs.declared.Chip.{Chip};
ghost use Rattle.chip.specs.Chips.{event_chip};
ghost use Rattle.chip.specs.Vetting.{Good};

use crate::{Chip, known, sound};
use rules::{Event, Outcome};
use std::marker::Model;

// A device, and whether it was found sound, which is asked once: an event of a sound record leaves a sound one. In a clause it is the
// device.
// Stays: `sound` is what was found of `device`, and the invariant ties the two; either counts alone.
#[derive(Drop)]
pub struct Vetted {
    device: Chip,
    sound: bool,
}

impl Model for Vetted {
    ghost Value = { Chip };

    ghost view = { λ k. k.device };

    ghost invariant = { λ k. k.sound ≡ true → Good k.device };
}

impl Vetted {
    pub fn of(device: Chip) -> Self
        ensures { result ≡ device }
    {
        Vetted {
            device,
            sound: sound(device),
        }
    }

    pub fn device(&self) -> Chip
        ensures { result ≡ self.now }
    {
        self.device
    }

    #[tactic(auto, using(crate::proofs::Kept::vetted_event))]
    pub fn event(&self, e: Event) -> Outcome<Vetted>
        ensures { result ≡ event_chip self.now e }
    {
        let o = known(self.sound, self.device, e);
        Outcome {
            device: Vetted {
                device: o.device,
                sound: self.sound,
            },
            answer: o.answer,
        }
    }
}
