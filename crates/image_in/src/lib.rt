// The bodies of an image, read: the record that they tell, and whether their unused bits are 0. Of version 1 the last is empty.
#![tactic(auto)]

mod bits;
mod registers;
mod rest;
mod unused;

ghost use Rattle.std.specs.Prelude.{◌≡◌, ◌&&◌};
ghost use Rattle.bodies.specs.Taken.{record_in, unused_clear, states_agree};

use bodies::Parts;
use registers::read_registers;
use rest::{read_counts, read_lines, read_pins, read_transfers};
use rules::Device;
use unused::{
    counts_clear, lines_clear, pins_clear, registers_clear, states_agree, transfers_clear,
};

#[tactic(auto, unfolding(bodies::specs::Taken::record_in))]
pub fn device(version: u8, parts: &Parts) -> Device
    ensures { result ≡ record_in version parts.now.registers.now parts.now.counts.now parts.now.pins.now parts.now.lines.now parts.now.transfers.now }
{
    let told = read_registers(version, parts.registers);
    let counted = read_counts(told, parts.counts);
    let pinned = read_pins(counted, parts.pins);
    let lined = read_lines(pinned, parts.lines);
    interrupts::relined(read_transfers(lined, parts.transfers))
}

#[tactic(auto, unfolding(bodies::specs::Taken::unused_clear))]
pub fn clear(parts: &Parts) -> bool
    ensures { result ≡ (unused_clear parts.now.registers.now parts.now.counts.now parts.now.pins.now parts.now.lines.now parts.now.transfers.now
        && states_agree parts.now.registers.now parts.now.transfers.now) }
{
    registers_clear(parts.registers)
        & counts_clear(parts.counts)
        & pins_clear(parts.pins)
        & lines_clear(parts.lines)
        & transfers_clear(parts.transfers)
        & states_agree(parts.registers, parts.transfers)
}
