// Whether a device is sound, and its event call where that is known.
ghost use Rattle.std.specs.Prelude.{◌≡◌};
ghost use Rattle.chip.specs.Chips.{sound_chip, known_chip};

use crate::Chip;
use rules::{Event, Outcome};

// Whether a record is sound.
#[tactic(auto, unfolding(crate::specs::Chips::sound_chip))]
pub fn sound(c: Chip) -> bool
    ensures { result ≡ sound_chip c }
{
    match c {
        Chip::Z8036(d) => refusals::sound(d),
        Chip::Z8536(z) => z8536::sound(z),
    }
}

// The event call; where `sure` says that the record is known to be sound, a Z8036 does not ask again.
// Stays: `sure` is the caller's, and the clause holds of any device (chip/Chips.known_chip).
#[tactic(auto, unfolding(crate::specs::Chips::known_chip))]
pub fn known(sure: bool, c: Chip, e: Event) -> Outcome<Chip>
    ensures { result ≡ known_chip sure c e }
{
    match c {
        Chip::Z8036(d) if sure => {
            let o = event::known(d, e);
            Outcome {
                device: Chip::Z8036(o.device),
                answer: o.answer,
            }
        }
        _ => crate::event(c, e),
    }
}
