// The image of a Z80 CTC: a record saved into a lent buffer, and restored from a lent image.
#![tactic(auto)]

mod bodies_in;
mod bodies_out;

ghost use Rattle.std.specs.Prelude.{◌≡◌, length};
ghost use Rattle.rules.specs.Refusals.{code_in};
ghost use Rattle.image.specs.Image.{restored_from};
ghost use Rattle.ctc_rules.specs.Record.{fresh_ctc};
ghost use Rattle.ctc_image.specs.Layout.{told_ctc, clear_ctc};
ghost use Rattle.ctc_image.specs.Image.{save_code_ctc, saved_ctc, accepted_ctc, restored_ctc};

use ctc_rules::Ctc;
use image::Restored;
use rules::Refusal;

// What an image begins with: 11H, 02H, and for each body its number, its place (two bytes, high first) and its length.
pub(crate) const TABLE: [u8; 10] = [0x11, 2, 1, 0, 10, 28, 2, 0, 38, 3];

// Saves a record into the first 41 bytes of a buffer. Codes: 9 for a record that is not sound, 7 for a buffer that is shorter, else 0.
// A refused save leaves the buffer as it was.
// Stays: the twin in `image` has the same two tests, of another record and another length; one for both would take five arguments.
#[tactic(auto, unfolding(rules::specs::Refusals::code_in, rules::specs::Refusals::refusal_number))]
pub fn save(d: Ctc, buf: &mut [u8]) -> Result<(), Refusal>
    ensures { (code_in result ≡ save_code_ctc d (length buf.old)) × (buf.new ≡ saved_ctc d buf.old) }
{
    if !ctc_rules::sound(d) {
        return Err(Refusal::Unsound);
    }
    if buf.len() < Ctc::IMAGE {
        return Err(Refusal::Length);
    }
    bodies_out::write(d, buf);
    Ok(())
}

// The record of two bodies, if their unused bits are 0 and it is sound.
#[tactic(auto, unfolding(crate::specs::Image::accepted_ctc, image::specs::Image::restored_from, rules::specs::Refusals::refusal_number))]
fn accept(channels: &[u8], lines: &[u8]) -> Result<Ctc, Refusal>
    ensures { restored_from result fresh_ctc ≡ accepted_ctc (clear_ctc channels.now lines.now) (told_ctc channels.now lines.now) }
{
    let d = bodies_in::record(channels, lines);
    if !(bodies_in::clear(channels, lines) & ctc_rules::sound(d)) {
        return Err(Refusal::Unsound);
    }
    Ok(d)
}

#[tactic(auto, unfolding(crate::specs::Image::restored_ctc, image::specs::Image::restored_from, rules::specs::Refusals::refusal_number))]
fn read(s: &[u8]) -> Result<Ctc, Refusal>
    ensures { restored_from result fresh_ctc ≡ restored_ctc s.now }
{
    if s.len() < TABLE.len() {
        return Err(Refusal::Length);
    }
    if !image::same_bytes(&s[..10], &TABLE) {
        return Err(Refusal::Contents);
    }
    if s.len() != Ctc::IMAGE {
        return Err(Refusal::Length);
    }
    accept(&s[10..38], &s[38..41])
}

// Restores the record of an image. Codes: 7 for an image shorter than its table, 8 for another table, 7 for another length, 9 for bodies
// that are not sound, else 0. A refused restore gives the fresh device.
// Stays: the twin in `image` is one call too, of `Restored::of`, which both share.
pub fn restore(s: &[u8]) -> Restored<Ctc>
    ensures { result ≡ restored_ctc s.now }
{
    Restored::of(read(s), Ctc::fresh())
}
