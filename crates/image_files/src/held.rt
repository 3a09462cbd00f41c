// A device of an image file: a Z8036, a Z8536 or a CTC.
ghost use Rattle.std.specs.Prelude.{◌≡◌, ◌≤◌, false, IsErr};
ghost use Rattle.image_files.specs.Files.{sound_held};

use chip::Chip;
use console::print;
use ctc_rules::Ctc;
use rules::{Device, Refusal};
use std::io;
use std::io::{Read, Write};
use z8536::Z8536;

#[derive(Clone, Copy, PartialEq, Eq)]
pub enum Held {
    Chip(Chip),
    Ctc(Ctc),
}

// How long the longest image is.
pub(crate) const LONGEST: usize = Z8536::IMAGE;

impl Held {
    // Runs a trace: the device after it.
    pub(crate) fn run<R: Read, W: Write>(self, input: &mut R, answers: &mut W) -> io::Result<Held> {
        match self {
            Held::Chip(d) => Ok(Held::Chip(console::run(d, input, answers)?)),
            Held::Ctc(d) => Ok(Held::Ctc(ctc_console::run(d, input, answers)?)),
        }
    }

    #[tactic(auto, using(chip_image::proofs::Lengths::length_within))]
    pub(crate) fn image_len(self) -> usize
        ensures { result ≤ 102 }
    {
        match self {
            Held::Chip(d) => chip_image::image_len(d),
            Held::Ctc(_) => Ctc::IMAGE,
        }
    }

    // Saves the device into the first bytes of a buffer, as many as its image has.
    #[tactic(auto, unfolding(rules::specs::Refusals::code_in), using(crate::proofs::Unsaved::saved_sound, crate::proofs::Unsaved::saved_sound_ctc))]
    pub(crate) fn save(self, image: &mut [u8]) -> Result<(), Refusal>
        ensures { sound_held self ≡ false → IsErr result }
    {
        match self {
            Held::Chip(d) => chip_image::save(d, image),
            Held::Ctc(d) => ctc_image::save(d, image),
        }
    }

    // Prints it in words.
    pub(crate) fn show<W: Write>(self, out: &mut W) {
        match self {
            Held::Chip(d) => show_device(d, out),
            Held::Ctc(d) => show_ctc(d, out),
        }
    }
}

fn show_all<W: Write>(d: Device, out: &mut W) {
    for n in 0..words::LINES {
        let _ = print(out, words::line(d, n));
    }
}

// A device in words: of a Z8536 its pointer, then its core.
pub fn show_device<W: Write>(c: Chip, out: &mut W) {
    if let Chip::Z8536(z) = c {
        let _ = print(out, words::pointer_line(z.pointer, z.pointed));
    }
    show_all(c.core(), out);
}

fn show_ctc<W: Write>(d: Ctc, out: &mut W) {
    for n in 0..ctc_words::LINES {
        let _ = print(out, ctc_words::line(d, n));
    }
}
