// Save and restore of either device.
#![tactic(auto)]

ghost use Rattle.std.specs.Prelude.{◌≡◌, length};
ghost use Rattle.rules.specs.Refusals.{code_in};
ghost use Rattle.chip_image.specs.ChipImage.{length_chip, save_code_chip, saved_chip, restored_chip};

use chip::Chip;
use image::Restored;
use rules::{Device, Refusal};
use z8536::Z8536;

// How long the image of a device is.
#[tactic(auto, unfolding(crate::specs::ChipImage::length_chip))]
pub fn image_len(c: Chip) -> usize
    ensures { result ≡ length_chip c }
{
    match c {
        Chip::Z8036(d) => Device::image_len(d.version),
        Chip::Z8536(_) => Z8536::IMAGE,
    }
}

// Saves a device into the first bytes of a buffer, as many as its image has. Codes: 9, then 7, else 0. A refused save leaves the
// buffer as it was.
#[tactic(auto, unfolding(crate::specs::ChipImage::save_code_chip, crate::specs::ChipImage::saved_chip))]
pub fn save(c: Chip, buf: &mut [u8]) -> Result<(), Refusal>
    ensures { (code_in result ≡ save_code_chip c (length buf.old)) × (buf.new ≡ saved_chip c buf.old) }
{
    match c {
        Chip::Z8036(d) => image::save(d, buf),
        Chip::Z8536(z) => image::save_z8536(z, buf),
    }
}

// Restores the device of an image; its first byte tells which. A refused restore gives the fresh one.
#[tactic(auto, unfolding(crate::specs::ChipImage::restored_chip))]
pub fn restore(s: &[u8]) -> Restored<Chip>
    ensures { result ≡ restored_chip s.now }
{
    if basics::byte_at(s, 0) == 3 {
        let r = image::restore_z8536(s);
        return Restored {
            code: r.code,
            device: Chip::from(r.device),
        };
    }
    let r = image::restore(s);
    Restored {
        code: r.code,
        device: Chip::from(r.device),
    }
}
