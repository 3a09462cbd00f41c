// A record with what is seen of it.
ghost use Rattle.std.specs.Prelude.{◌≡◌};
ghost use Rattle.levels.specs.Looks.{looks_of};

use levels::Looks;
use rules::Device;

#[derive(Clone, Copy)]
pub struct Seen {
    pub device: Device,
    pub looks: Looks,
    ghost looked: { looks ≡ looks_of device },
}

impl Seen {
    pub(crate) fn of(device: Device) -> Self
        ensures { result.device ≡ device }
    {
        Seen {
            device,
            looks: levels::look(device),
        }
    }
}
