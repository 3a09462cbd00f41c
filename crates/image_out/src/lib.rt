// The bodies of a record's image, written.
#![tactic(auto)]

mod registers;
mod rest;

ghost use Rattle.std.specs.Prelude.{◌≡◌};
ghost use Rattle.bodies.specs.Written.{bodies_of};

use bodies::Bodies;
use rules::Device;

pub fn bodies(d: Device) -> Bodies
    ensures { result ≡ bodies_of d }
{
    Bodies {
        registers: registers::registers(d),
        counts: rest::counts(d),
        pins: rest::pins(d),
        lines: rest::lines(d),
        transfers: rest::transfers(d),
    }
}
