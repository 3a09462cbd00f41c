// The image: a record saved into a lent buffer, and restored from a lent image. The Z8536's are in `pointed`.
#![tactic(auto)]

mod contents;
mod pointed;

ghost use Rattle.std.specs.Prelude.{◌≡◌, ◌&&◌, ◌++◌, ◌+◌, ◌≤◌, length, drop};
ghost use Rattle.rules.specs.Refusals.{code_in};
ghost use Rattle.rules.specs.Record.{fresh_of};
ghost use Rattle.bodies.specs.Taken.{record_in, unused_clear, states_agree};
ghost use Rattle.image.specs.Image.{agree, fifth_len, bodies_len, laid_by, save_code, saved_of, restored_from, accepted_of, restored_by, restored_of};

use bodies::Parts;
pub use pointed::{restore_z8536, save_z8536};
use rules::{Device, Refusal};

// What a restore answers: its code, and the device, which is the fresh one where the code is not 0.
// Stays: a Result has no place for the fresh device that paper 01 gives a refused restore (image/Image.restored_of).
#[derive(Clone, Copy)]
pub struct Restored<D> {
    pub code: u8,
    pub device: D,
}

impl<D: Copy> Restored<D> {
    // What was read; or, with the number of its refusal, the device beside it.
    #[tactic(auto, unfolding(crate::specs::Image::restored_from))]
    pub fn of(read: Result<D, Refusal>, fresh: D) -> Restored<D>
        ensures { result ≡ restored_from read fresh }
    {
        match read {
            Ok(device) => Restored { code: 0, device },
            Err(refusal) => Restored {
                code: refusal.number(),
                device: fresh,
            },
        }
    }
}

// Whether two slices hold the same bytes.
#[tactic(auto, using(crate::proofs::Agree::bytes_agree))]
pub fn same_bytes(a: &[u8], b: &[u8]) -> bool
    ensures { result ≡ agree a.now b.now }
{
    a == b
}

// How long the fifth body of a version is: version 1 has none.
#[tactic(auto, unfolding(crate::specs::Image::fifth_len))]
fn fifth_len(version: u8) -> usize
    ensures { (result ≡ fifth_len version) × (result ≤ 8) }
{
    if version == 1 {
        return 0;
    }
    8
}

// Contents, and behind them the bodies of a record.
#[tactic(auto, unfolding(bodies::specs::Written::registers_body, bodies::specs::Written::counts_body, bodies::specs::Written::pins_body, bodies::specs::Written::lines_body, bodies::specs::Written::transfers_body))]
pub(crate) fn write_by<const N: usize>(contents: &[u8; N], d: Device, buf: &mut [u8])
    requires { length contents.now + bodies_len d.version ≤ length buf.old }
    ensures { buf.new ≡ laid_by contents.now d
        ++ drop (length contents.now + bodies_len d.version) buf.old }
{
    let contents = contents.as_slice();
    let n = contents.len();
    let b = image_out::bodies(d);
    basics::lay(buf, 0, contents);
    basics::lay(buf, n, &b.registers);
    basics::lay(buf, n + 48, &b.counts);
    basics::lay(buf, n + 57, &b.pins);
    basics::lay(buf, n + 64, &b.lines);
    if d.version != 1 {
        basics::lay(buf, n + 66, &b.transfers);
    }
}

// Saves a record into the first bytes of a buffer, 84 of version 1, 96 of version 2. Codes: 9 for a record that is not sound, 7
// for a buffer that is shorter, else 0. A refused save leaves the buffer as it was.
// Stays: the twin in `ctc_image` has the same two tests, of another record and another length; one for both would take five arguments.
#[tactic(auto, unfolding(rules::specs::Refusals::code_in, rules::specs::Refusals::refusal_number))]
pub fn save(d: Device, buf: &mut [u8]) -> Result<(), Refusal>
    ensures { (code_in result ≡ save_code d (length buf.old)) × (buf.new ≡ saved_of d buf.old) }
{
    if !refusals::sound(d) {
        return Err(Refusal::Unsound);
    }
    if buf.len() < Device::image_len(d.version) {
        return Err(Refusal::Length);
    }
    if d.version == 1 {
        write_by(&contents::OLD, d, buf);
    } else {
        write_by(&contents::NEW, d, buf);
    }
    Ok(())
}

// The record of five bodies, if their unused bits are 0 and it is sound.
#[tactic(auto, unfolding(crate::specs::Image::restored_from, crate::specs::Image::accepted_of, rules::specs::Refusals::refusal_number))]
fn accept(version: u8, parts: &Parts) -> Result<Device, Refusal>
    ensures { restored_from result fresh_of ≡ accepted_of
        (unused_clear parts.now.registers.now parts.now.counts.now parts.now.pins.now parts.now.lines.now parts.now.transfers.now
        && states_agree parts.now.registers.now parts.now.transfers.now)
        (record_in version parts.now.registers.now parts.now.counts.now parts.now.pins.now parts.now.lines.now parts.now.transfers.now) }
{
    if !image_in::clear(parts) {
        return Err(Refusal::Unsound);
    }
    let e = image_in::device(version, parts);
    if !refusals::sound(e) {
        return Err(Refusal::Unsound);
    }
    Ok(e)
}

// An image with these contents, of a record of a version; behind its bodies stand `more` bytes.
#[tactic(auto, unfolding(crate::specs::Image::restored_from, crate::specs::Image::restored_by, rules::specs::Refusals::refusal_number))]
pub(crate) fn read_by(version: u8, contents: &[u8], more: u8, s: &[u8]) -> Result<Device, Refusal>
    ensures { restored_from result fresh_of ≡ restored_by version contents.now more s.now }
{
    let n = contents.len();
    if s.len() < n {
        return Err(Refusal::Length);
    }
    if !same_bytes(&s[..n], contents) {
        return Err(Refusal::Contents);
    }
    let counts = n + 48;
    let pins = n + 57;
    let lines = n + 64;
    let transfers = n + 66;
    let end = transfers + fifth_len(version);
    if s.len() != end + more as usize {
        return Err(Refusal::Length);
    }
    accept(
        version,
        &Parts {
            registers: &s[n..counts],
            counts: &s[counts..pins],
            pins: &s[pins..lines],
            lines: &s[lines..transfers],
            transfers: &s[transfers..end],
        },
    )
}

// The record of an image of version 1 or 2.
#[tactic(auto, unfolding(crate::specs::Image::restored_of, bodies::specs::Layout::layout_in))]
fn read(s: &[u8]) -> Result<Device, Refusal>
    ensures { restored_from result fresh_of ≡ restored_of s.now }
{
    if basics::byte_at(s, 0) == 2 {
        return read_by(2, &contents::NEW, 0, s);
    }
    read_by(1, &contents::OLD, 0, s)
}

// Restores the record of an image of version 1 or 2. Codes: 7 for an image shorter than its version's contents, 8 for other contents,
// 7 for another length, 9 for bodies that are not sound, else 0. A refused restore gives the fresh device.
// Stays: the twin in `ctc_image` is one call too, of `Restored::of`, which both share.
pub fn restore(s: &[u8]) -> Restored<Device>
    ensures { result ≡ restored_of s.now }
{
    Restored::of(read(s), Device::fresh())
}
