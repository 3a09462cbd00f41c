// The Z8536: a Z8036's record behind four addresses, and a pointer to its registers. The rules over it are in specs/; the event call
// is in `event_z8536`, save and restore are in `image`.
#![tactic(auto)]

ghost use Rattle.std.specs.Prelude.{◌≡◌};
ghost use Rattle.z8536.specs.Z8536.{fresh_z8536, reset_clear, sound_z8536};

use rules::Device;

// The device. `core` is the Z8036's record; `pointer` the register pointed to last, and `pointed` that it was set just now.
// Stays: `pointed` is state of its own beside `pointer`, which stands when it ends; an image has both (bodies/Written.pointer_body).
#[derive(Clone, Copy, PartialEq, Eq)]
pub struct Z8536 {
    pub core: Device,
    pub pointer: u8,
    pub pointed: bool,
}

impl Z8536 {
    // How long its image is.
    pub const IMAGE: usize = 102;

    // The fresh device: reset, outside pins 0, IEI 1.
    pub fn fresh() -> Self
        ensures { result ≡ fresh_z8536 }
    {
        Z8536 {
            core: Device::fresh(),
            pointer: 0,
            pointed: false,
        }
    }
}

// Whether pointer and state are clear if the device is in reset.
#[tactic(auto, unfolding(crate::specs::Z8536::reset_clear))]
fn reset_clear(z: Z8536) -> bool
    ensures { result ≡ reset_clear z }
{
    !z.core.reset() | ((z.pointer == 0) & !z.pointed)
}

#[tactic(auto, unfolding(crate::specs::Z8536::sound_z8536))]
pub fn sound(z: Z8536) -> bool
    ensures { result ≡ sound_z8536 z }
{
    refusals::sound(z.core)
        & (z.core.version == 2)
        & ((z.pointer as usize) < Device::REGISTERS)
        & reset_clear(z)
}
