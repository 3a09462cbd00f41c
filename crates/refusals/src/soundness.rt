// Whether a record is sound.
ghost use Rattle.std.specs.Prelude.{◌≡◌, ◌<◌};
ghost use Rattle.rules.specs.Record.{counter_at};
ghost use Rattle.rules.specs.Registers.{counter_enabled};
ghost use Rattle.rules.specs.Sound.{four_bits, later_port, no_later, sound_source, sound_counter, sound_port, sound_port_at, pmf_only, held_only, sound_transfer, sound_transfer_at};
ghost use Rattle.rules.specs.Sound.{reset_only, sound_sources, sound_counters, sound_ports, sound_patterns, sound_transfers, sound_version, sound_but_lines, sound_lines, sound_of};

use crate::settings;
use basics::Place;
use rules::{Counter, Device, Pattern, Port, Source, Transfer};

#[tactic(auto, unfolding(rules::specs::Sound::sound_source, rules::specs::Sound::err_only, rules::specs::Sound::hidden_only))]
fn sound_source(s: Source) -> bool
    ensures { result ≡ sound_source s }
{
    (!s.err | s.ip) & (!s.hidden | (s.ip & !s.err))
}

#[tactic(auto, unfolding(rules::specs::Sound::sound_sources))]
fn sound_sources(d: Device) -> bool
    ensures { result ≡ sound_sources d }
{
    d.sources.iter().all(|s| sound_source(*s))
}

fn sound_counter(version: u8, enabled: bool, c: Counter) -> bool
    ensures { result ≡ sound_counter version enabled c }
{
    let pulse = !c.pulse | ((version == 2) & enabled);
    (!c.cip | enabled) & (!c.half | c.cip) & (c.rcc | (c.frozen == 0)) & pulse
}

fn sound_counter_at(d: Device, i: Place<3>) -> bool
    ensures { result ≡ sound_counter d.version (counter_enabled d i) (counter_at d i) }
{
    let n = i.index();
    sound_counter(d.version, levels::counter_on(d.config, n), d.counters[n])
}

#[tactic(auto, unfolding(rules::specs::Sound::sound_counters))]
fn sound_counters(d: Device) -> bool
    ensures { result ≡ sound_counters d }
{
    sound_counter_at(d, Place { at: 0 })
        & sound_counter_at(d, Place { at: 1 })
        & sound_counter_at(d, Place { at: 2 })
}

#[tactic(auto, unfolding(rules::specs::Sound::four_bits))]
fn four_bits(q: Port) -> bool
    ensures { result ≡ four_bits q }
{
    (q.polarity < 16)
        & (q.direction < 16)
        & (q.special < 16)
        & (q.output < 16)
        & (q.outside < 16)
        & (q.catcher < 16)
}

// A catcher only where a bit has one, and set where the path value is 1.
// Stays: a port, its enable and its path value, as the definition takes them (rules/Sound.sound_port); callers have each from elsewhere.
#[tactic(auto, unfolding(rules::specs::Sound::sound_port, rules::specs::Sound::catcher_only, rules::specs::Sound::catcher_set))]
fn sound_port(enabled: bool, q: Port, path: u8) -> bool
    ensures { result ≡ sound_port enabled q path }
{
    let m = ports::places(enabled, q);
    (q.catcher & (m ^ 255) == 0) & (m & path & (q.catcher ^ 255) == 0)
}

// PMF only in an enabled port with a pattern, one of AND and the two ORs, and a bit on.
#[tactic(auto, unfolding(rules::specs::Sound::pmf_only))]
fn pmf_only(enabled: bool, p: Pattern) -> bool
    ensures { result ≡ pmf_only enabled p }
{
    let is_and = p.mode / 2 % 4 == 1;
    let is_or = p.mode / 2 % 4 == 2;
    let priority = p.mode / 2 % 4 == 3;
    !p.pmf | (enabled & (is_and | is_or | priority) & (ports::on(p) != 0))
}

// A catcher is at an input, whose path value is the outside level XOR polarity.
#[tactic(auto, unfolding(rules::specs::Sound::sound_port_at, rules::specs::PortData::path_at, rules::specs::PortData::pins_at))]
fn sound_port_at(d: Device, p: Place<3>) -> bool
    ensures { result ≡ sound_port_at d p }
{
    let p = p.index();
    let q = levels::effective_at(d, p);
    sound_port(levels::port_enabled(d, p), q, q.outside ^ q.polarity)
}

#[tactic(auto, unfolding(rules::specs::Sound::sound_ports))]
fn sound_ports(d: Device) -> bool
    ensures { result ≡ sound_ports d }
{
    four_bits(d.ports[2])
        & sound_port_at(d, Place { at: 0 })
        & sound_port_at(d, Place { at: 1 })
        & sound_port_at(d, Place { at: 2 })
}

#[tactic(auto, unfolding(rules::specs::Sound::sound_patterns))]
fn sound_patterns(d: Device) -> bool
    ensures { result ≡ sound_patterns d }
{
    pmf_only(levels::port_enabled(d, 0), d.patterns[0])
        & pmf_only(levels::port_enabled(d, 1), d.patterns[1])
}

// A port that has no handshake, or is disabled, holds nothing.
fn held_only(enabled: bool, q: Pattern, t: Transfer) -> bool
    ensures { result ≡ held_only enabled q t }
{
    (ports::handshakes(q) & enabled) | (t == Transfer::default())
}

#[tactic(auto, unfolding(rules::specs::Sound::sound_transfer, rules::specs::Sound::room_only, rules::specs::Sound::bytes_only, rules::specs::Sound::unfinished_only, rules::specs::Sound::pair_only, rules::specs::Sound::front_only))]
fn sound_transfer(enabled: bool, output: u8, q: Pattern, s: Source, t: Transfer) -> bool
    ensures { result ≡ sound_transfer enabled output q s t }
{
    let bytes = (!(t.bytes == 0) | (t.front == 0)) & (!(t.bytes < 2) | (t.behind == 0));
    let unfinished = !t.unfinished | !(q.handshake / 64 == 1);
    let pair = !t.pair | (s.ip & (q.mode / 32 % 2 == 1));
    let front = !(ports::outputs(q) & !(t.bytes == 0)) | (output == t.front);
    held_only(enabled, q, t) & (t.bytes <= ports::depth(q)) & bytes & unfinished & pair & front
}

#[tactic(auto, unfolding(rules::specs::Sound::sound_transfer_at))]
fn sound_transfer_at(d: Device, p: Place<2>) -> bool
    ensures { result ≡ sound_transfer_at d p }
{
    let i = p.index();
    sound_transfer(
        levels::port_enabled(d, i),
        d.ports[i].output,
        d.patterns[i],
        d.sources[Source::of_port(i)],
        d.transfers[i],
    )
}

#[tactic(auto, unfolding(rules::specs::Sound::sound_transfers))]
fn sound_transfers(d: Device) -> bool
    ensures { result ≡ sound_transfers d }
{
    sound_transfer_at(d, Place { at: 0 }) & sound_transfer_at(d, Place { at: 1 })
}

fn later_port(version: u8, q: Pattern) -> bool
    ensures { result ≡ later_port version q }
{
    settings::later_port_mode(version, q.mode as u32)
        | settings::later_handshake(q.mode as u32, q.handshake as u32)
        | settings::later_priority(q.mode as u32, q.transition as u32)
}

#[tactic(auto, unfolding(rules::specs::Sound::no_later))]
fn no_later(d: Device) -> bool
    ensures { result ≡ no_later d }
{
    !settings::later_config(d.config as u32)
        & !later_port(d.version, d.patterns[0])
        & !later_port(d.version, d.patterns[1])
        & !settings::later_counter_mode(d.counters[0].mode as u32)
        & !settings::later_counter_mode(d.counters[1].mode as u32)
        & !settings::later_counter_mode(d.counters[2].mode as u32)
}

#[tactic(auto, unfolding(rules::specs::Sound::reset_only))]
fn reset_only(d: Device) -> bool
    ensures { result ≡ reset_only d }
{
    if d.reset() {
        let e = Device {
            lines: d.lines,
            ..record::reset(d)
        };
        return record::same(d, e);
    }
    true
}

#[tactic(auto, unfolding(rules::specs::Sound::sound_version))]
fn sound_version(d: Device) -> bool
    ensures { result ≡ sound_version d }
{
    (d.version == 1) | (d.version == 2)
}

#[tactic(auto, unfolding(rules::specs::Sound::same_lines, rules::specs::Sound::sound_lines))]
fn sound_lines(d: Device) -> bool
    ensures { result ≡ sound_lines d }
{
    d.lines == interrupts::lines(d)
}

#[tactic(auto, unfolding(rules::specs::Sound::sound_but_lines))]
fn sound_but_lines(d: Device) -> bool
    ensures { result ≡ sound_but_lines d }
{
    sound_version(d)
        & no_later(d)
        & sound_sources(d)
        & sound_counters(d)
        & sound_ports(d)
        & sound_patterns(d)
        & sound_transfers(d)
        & reset_only(d)
}

#[tactic(auto, unfolding(rules::specs::Sound::sound_of))]
pub fn sound(d: Device) -> bool
    ensures { result ≡ sound_of d }
{
    sound_but_lines(d) & sound_lines(d)
}
