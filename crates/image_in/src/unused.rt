// Whether the unused bits of a body are 0.
ghost use Rattle.std.specs.Prelude.{◌≡◌};
ghost use Rattle.bodies.specs.Taken.{byte_at, counter_clear, registers_clear, counts_clear, pins_clear, lines_clear, transfers_clear, state_agrees, states_agree};

use crate::bits::bit_at;
use crate::registers::pattern_in;
use crate::rest::transfer_in;
use basics::Place;

// D1 of a counter's command register, the trigger.
fn counter_clear(b: &[u8], i: usize) -> bool
    ensures { result ≡ counter_clear (byte_at b.now i) }
{
    !bit_at(b, i, 1)
}

pub(crate) fn registers_clear(b: &[u8]) -> bool
    ensures { result ≡ registers_clear b.now }
{
    counter_clear(b, 0x0A)
        & counter_clear(b, 0x0B)
        & counter_clear(b, 0x0C)
        & (basics::byte_at(b, 0x1F) == 0)
}

pub(crate) fn counts_clear(b: &[u8]) -> bool
    ensures { result ≡ counts_clear b.now }
{
    (basics::byte_at(b, 2) < 8) & (basics::byte_at(b, 5) < 8) & (basics::byte_at(b, 8) < 8)
}

pub(crate) fn pins_clear(b: &[u8]) -> bool
    ensures { result ≡ pins_clear b.now }
{
    basics::byte_at(b, 6) < 4
}

pub(crate) fn lines_clear(b: &[u8]) -> bool
    ensures { result ≡ lines_clear b.now }
{
    (basics::byte_at(b, 0) < 2) & (basics::byte_at(b, 1) < 2)
}

pub(crate) fn transfers_clear(b: &[u8]) -> bool
    ensures { result ≡ transfers_clear b.now }
{
    (basics::byte_at(b, 3) < 4) & (basics::byte_at(b, 7) < 4)
}

// Whether ORE and IRF of port p in body 1 are what body 5 makes of them.
#[tactic(auto, unfolding(bodies::specs::Taken::state_agrees))]
fn state_agrees(registers: &[u8], transfers: &[u8], p: Place<2>) -> bool
    ensures { result ≡ state_agrees registers.now transfers.now p }
{
    let q = pattern_in(registers, p);
    let t = transfer_in(transfers, p);
    let command = 0x08 + p.index();
    (bit_at(registers, command, 3) == ports::ore(q, t))
        & (bit_at(registers, command, 2) == ports::irf(q, t))
}

#[tactic(auto, unfolding(bodies::specs::Taken::states_agree))]
pub(crate) fn states_agree(registers: &[u8], transfers: &[u8]) -> bool
    ensures { result ≡ states_agree registers.now transfers.now }
{
    state_agrees(registers, transfers, Place { at: 0 })
        & state_agrees(registers, transfers, Place { at: 1 })
}
