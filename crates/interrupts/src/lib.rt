// The five sources of a device: who requests, the lines, the acknowledge, and vectors.
#![tactic(auto)]

mod order;
mod vectors;

ghost use Rattle.std.specs.Prelude.{◌≡◌, ◌≤◌};
ghost use Rattle.rules.specs.Registers.{mie};
ghost use Rattle.rules.specs.Interrupts.{ieo_of, place_of, lines_of, relined, acknowledge, acknowledged, vector_read, current_vector};

use basics::Place;
pub use order::requester_of;
use rules::{Device, Lines, Source};

fn mie(d: Device) -> bool
    ensures { result ≡ mie d }
{
    d.master / 128 % 2 == 1
}

// The place of the highest requester: 1 to 5, or 0.
// Stays: a number with 0 for none, as the record stores it (rules/Interrupts.place_of) and C gets it (host/Bytes.line_bytes).
#[tactic(auto, unfolding(rules::specs::Interrupts::place_of))]
fn place(d: Device) -> u8
    ensures { (result ≡ place_of d) × (result ≤ 5) }
{
    match requester_of(d) {
        Some(k) => 1 + (k.index() as u8),
        None => 0,
    }
}

#[tactic(auto, unfolding(rules::specs::Interrupts::ieo_of))]
fn ieo(d: Device) -> bool
    ensures { result ≡ ieo_of d }
{
    let dlc = d.master / 64 % 2 == 1;
    d.iei & !order::is_served(d) & !dlc
}

// INT, IEO and the place, worked out: some source requests where there is a place.
#[tactic(auto, unfolding(rules::specs::Interrupts::lines_of))]
pub fn lines(d: Device) -> Lines
    ensures { result ≡ lines_of d }
{
    let n = place(d);
    Lines {
        int: n != 0,
        ieo: ieo(d),
        place: n,
    }
}

// The record with its lines worked out.
#[tactic(auto, unfolding(rules::specs::Interrupts::relined))]
pub fn relined(d: Device) -> Device
    ensures { result ≡ relined d }
{
    Device {
        lines: lines(d),
        ..d
    }
}

// The value of an acknowledge.
#[tactic(auto, unfolding(rules::specs::Interrupts::acknowledge))]
pub fn acknowledge(d: Device) -> u8
    ensures { result ≡ acknowledge d }
{
    let nv = d.master / 32 % 2 == 1;
    match requester_of(d) {
        Some(k) if !nv => vectors::vector_for(d, k),
        _ => 0,
    }
}

// The record after an acknowledge: as it was where none requests.
#[tactic(auto, unfolding(rules::specs::Interrupts::acknowledged))]
pub fn acknowledged(d: Device) -> Device
    ensures { result ≡ acknowledged d }
{
    let mut e = d;
    if let Some(k) = requester_of(d) {
        e.sources[k.index()].ius = true;
    }
    e
}

// What a vector register reads.
#[tactic(auto, unfolding(rules::specs::Interrupts::vector_read))]
pub fn vector_read(d: Device, v: usize) -> u8
    ensures { result ≡ vector_read d v }
{
    let base = vectors::vector_at(d, v);
    if !mie(d) {
        return base;
    }
    if v == 0 {
        return vectors::with_status(d, Place { at: Source::A });
    }
    if v == 1 {
        return vectors::with_status(d, Place { at: Source::B });
    }
    match order::pending_counter(d) {
        Some(k) => vectors::with_status(d, k),
        None => base,
    }
}

// What 1FH reads.
#[tactic(auto, unfolding(rules::specs::Interrupts::current_vector))]
pub fn current_vector(d: Device) -> u8
    ensures { result ≡ current_vector d }
{
    if !mie(d) {
        return 255;
    }
    match order::pending_first(d) {
        Some(k) => vectors::vector_for(d, k),
        None => 255,
    }
}
