// One port: its pins, its path values and what is read of it, by masks over the whole byte.
ghost use Rattle.std.specs.Prelude.{◌≡◌, cond, eqb};
ghost use Rattle.basics.specs.Byte.{byte_of};
ghost use Rattle.rules.specs.Counters.{output_enabled};
ghost use Rattle.rules.specs.PortData.{pins_of, path_of, seen_of, level_of, standing};

use rules::{Counter, Port};

#[tactic(auto, unfolding(rules::specs::PortData::pins_of))]
pub(crate) fn pins(enabled: bool, q: Port, value: u8) -> u8
    ensures { result ≡ pins_of enabled q value }
{
    let level = value ^ q.polarity;
    let driven = ports::spread(enabled) & (q.direction ^ 255) & ((q.special & level) ^ 255);
    (level & driven) | (q.outside & (driven ^ 255))
}

#[tactic(auto, unfolding(rules::specs::PortData::path_of))]
pub(crate) fn path(q: Port, pins: u8, value: u8) -> u8
    ensures { result ≡ path_of q pins value }
{
    ((pins ^ q.polarity) & q.direction) | (value & (q.direction ^ 255))
}

// Stays: a port, its enable and its path value, as the definition takes them (rules/PortData.seen_of); callers have each from elsewhere.
#[tactic(auto, unfolding(rules::specs::PortData::seen_of))]
pub(crate) fn seen(enabled: bool, q: Port, path: u8) -> u8
    ensures { result ≡ seen_of enabled q path }
{
    let m = ports::places(enabled, q);
    (q.catcher & m) | (path & (m ^ 255))
}

#[tactic(auto, unfolding(rules::specs::PortData::level_of))]
pub(crate) fn level(q: Port, pins: u8) -> u8
    ensures { result ≡ level_of q pins }
{
    pins ^ q.polarity
}

fn output_enabled(c: Counter) -> bool
    ensures { result ≡ output_enabled c }
{
    c.mode / 64 % 2 == 1
}

// D4 or D0 alone.
#[tactic(auto, unfolding(basics::specs::Byte::byte_of))]
fn place(high: bool) -> u8
    ensures { result ≡ byte_of (λ j. eqb j (cond high 4 0)) }
{
    if high { 16 } else { 1 }
}

// The byte x with the counter's output at D4 or D0, where the output is enabled.
pub(crate) fn stand(version: u8, c: Counter, high: bool, x: u8) -> u8
    ensures { result ≡ standing version c (cond high 4 0) x }
{
    if output_enabled(c) {
        let w = place(high);
        let on = counters::output(version, c);
        return (x & (w ^ 255)) | (ports::spread(on) & w);
    }
    x
}
