// What an accepted event does: the record, the value and the zero counts.
ghost use Rattle.std.specs.Prelude.{◌≡◌, true, ◌==◌};
ghost use Rattle.basics.specs.Byte.{bit};
ghost use Rattle.ctc_rules.specs.Record.{channel_at, reset_ctc};
ghost use Rattle.ctc_rules.specs.Channels.{level_channel};
ghost use Rattle.ctc_rules.specs.Clocks.{ran_ctc};
ghost use Rattle.ctc_rules.specs.Sound.{sound_ctc};
ghost use Rattle.ctc_rules.specs.Events.{code_ctc, plain_ctc, written_ctc, levels_ctc, clocks_ctc, effect_ctc};
ghost use Rattle.ctc_rules.specs.Set.{set_iei};

use crate::{channels, serving};
use basics::Place;
use ctc_rules::{Channel, Ctc, CtcEffect, CtcRan};
use rules::Event;

// With no zero counts.
pub(crate) fn plain(device: Ctc, value: u8) -> CtcEffect
    ensures { result ≡ plain_ctc device value }
{
    CtcEffect {
        device,
        value,
        zeros: [0; 4],
    }
}

#[tactic(auto, unfolding(ctc_rules::specs::Record::reset_ctc))]
fn reset(d: Ctc) -> Ctc
    ensures { result ≡ reset_ctc d }
{
    Ctc {
        levels: d.levels,
        iei: d.iei,
        ..Ctc::fresh()
    }
}

#[tactic(auto, unfolding(ctc_rules::specs::Events::written_ctc))]
fn write(d: Ctc, i: Place<4>, b: u8) -> Ctc
    ensures { result ≡ written_ctc d i b }
{
    let i = i.index();
    let c = d.channels[i];
    let mut e = d;
    if c.awaits {
        e.channels[i] = channels::constant(c, b);
        return e;
    }
    if b % 2 == 1 {
        e.channels[i] = channels::control(c, b);
        return e;
    }
    if i == 0 {
        e.vector = b / 8 * 8;
    }
    e
}

// Channel i under the levels a.
fn level_at(d: Ctc, i: Place<4>, a: u8) -> Channel
    ensures { result ≡ level_channel (channel_at d i) (bit d.levels i) (bit a i) }
{
    let i = i.index();
    channels::level(d.channels[i], (d.levels >> i) % 2 == 1, (a >> i) % 2 == 1)
}

#[tactic(auto, unfolding(ctc_rules::specs::Events::levels_ctc))]
fn levels(d: Ctc, a: u8) -> Ctc
    ensures { result ≡ levels_ctc d a }
{
    Ctc {
        channels: [
            level_at(d, Place { at: 0 }, a),
            level_at(d, Place { at: 1 }, a),
            level_at(d, Place { at: 2 }, a),
            level_at(d, Place { at: 3 }, a),
        ],
        vector: d.vector,
        levels: a % 16,
        iei: d.iei,
    }
}

fn run(n: u32, d: Ctc) -> CtcRan
    requires { sound_ctc d ≡ true }
    ensures { result ≡ ran_ctc n d }
{
    let s0 = channels::clocks(d.channels[0], n);
    let s1 = channels::clocks(d.channels[1], n);
    let s2 = channels::clocks(d.channels[2], n);
    let s3 = channels::clocks(d.channels[3], n);
    CtcRan {
        device: Ctc {
            channels: [s0.channel, s1.channel, s2.channel, s3.channel],
            ..d
        },
        zeros: [s0.zeros, s1.zeros, s2.zeros, s3.zeros],
    }
}

#[tactic(auto, unfolding(ctc_rules::specs::Events::clocks_ctc))]
fn clocks(d: Ctc, n: u32) -> CtcEffect
    requires { sound_ctc d ≡ true }
    ensures { result ≡ clocks_ctc d n }
{
    let s = run(n, d);
    // Stays: tried with the field itself in the literal, and the check refused it: a field that is an array goes into a literal by a name of its own.
    let zeros = s.zeros;
    CtcEffect {
        device: s.device,
        value: 0,
        zeros,
    }
}

fn with_iei(d: Ctc, v: u32) -> CtcEffect
    ensures { result ≡ plain_ctc (set_iei d (v == 1)) 0 }
{
    plain(Ctc { iei: v == 1, ..d }, 0)
}

// What an accepted event does.
#[tactic(auto, unfolding(ctc_rules::specs::Events::effect_ctc))]
pub(crate) fn effect_of(d: Ctc, e: Event) -> CtcEffect
    requires { code_ctc d e ≡ 0 }
    ensures { result ≡ effect_ctc d e }
{
    match e.kind {
        Event::X => plain(reset(d), 0),
        Event::W => plain(write(d, Place { at: e.a as usize }, e.b as u8), 0),
        Event::R => plain(d, d.channels[e.a as usize].count),
        Event::P => plain(levels(d, e.a as u8), 0),
        Event::T => clocks(d, e.a),
        Event::K => plain(serving::acknowledged(d), serving::vector(d)),
        _ => with_iei(d, e.a),
    }
}
