// Single bits of a body.
ghost use Rattle.std.specs.Prelude.{◌≡◌, ◌<◌};
ghost use Rattle.basics.specs.Byte.{bit};
ghost use Rattle.bodies.specs.Taken.{byte_at};

// Dk of the byte at a place.
pub(crate) fn bit_at(b: &[u8], place: usize, k: u8) -> bool
    requires { k < 8 }
    ensures { result ≡ bit (byte_at b.now place) k }
{
    (basics::byte_at(b, place) >> k) % 2 == 1
}
