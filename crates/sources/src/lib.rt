// One interrupt source: commands, events, and what its command register reads.
#![tactic(auto)]

ghost use Rattle.std.specs.Prelude.{◌≡◌, ◌≤◌};
ghost use Rattle.rules.specs.Registers.{ip_cleared, commanded, status_of, port_command_of, counter_command_of};
ghost use Rattle.rules.specs.Patterns.{event_by, hides_by};
ghost use Rattle.rules.specs.Interrupts.{fate_of};
ghost use Rattle.theorems.specs.Alone.{left_by, struck_by};

use rules::{Counter, Fate, Pattern, Source};

// Clears IP: the hidden error comes out.
#[tactic(auto, unfolding(rules::specs::Registers::ip_cleared))]
fn clear_ip(s: Source) -> Source
    ensures { result ≡ ip_cleared s }
{
    Source {
        ip: s.hidden,
        err: s.hidden,
        hidden: false,
        ..s
    }
}

// A written command, 0 to 7.
#[tactic(auto, unfolding(rules::specs::Registers::commanded))]
pub fn command(s: Source, n: u8) -> Source
    ensures { result ≡ commanded s n }
{
    match n {
        1 => Source {
            ius: false,
            ..clear_ip(s)
        },
        2 => Source { ius: true, ..s },
        3 => Source { ius: false, ..s },
        4 => Source { ip: true, ..s },
        5 => clear_ip(s),
        6 => Source { ie: true, ..s },
        7 => Source { ie: false, ..s },
        _ => s,
    }
}

// IUS, IE, IP, ERR in D7-D4.
#[tactic(auto, unfolding(rules::specs::Registers::status_of))]
fn status(s: Source) -> u8
    ensures { (result ≡ status_of s) × (result ≤ 240) }
{
    basics::weight(s.ius, 128)
        + basics::weight(s.ie, 64)
        + basics::weight(s.ip, 32)
        + basics::weight(s.err, 16)
}

// What the command register of a port reads.
pub fn port_command(s: Source, q: Pattern, ore: bool, irf: bool) -> u8
    ensures { result ≡ port_command_of s q ore irf }
{
    let state = basics::weight(ore, 8) + basics::weight(irf, 4);
    status(s) + (state + basics::weight(q.pmf, 2) + basics::weight(q.ioe, 1))
}

// What the command register of a counter reads.
pub fn counter_command(s: Source, c: Counter) -> u8
    ensures { result ≡ counter_command_of s c }
{
    status(s) + (basics::weight(c.rcc, 8) + basics::weight(c.gcb, 4) + basics::weight(c.cip, 1))
}

// What becomes of an event that happens at a source, or does not; `hides` says whether it may set the hidden error.
#[tactic(auto, unfolding(rules::specs::Interrupts::fate_of))]
pub fn fate(hides: bool, happens: bool, s: Source) -> Fate
    ensures { result ≡ fate_of hides happens s }
{
    if !happens {
        return Fate::Nothing;
    }
    if !s.ip {
        return Fate::Taken;
    }
    if hides & !s.err & !s.hidden {
        return Fate::Kept;
    }
    Fate::Lost
}

// A source after what became of an event.
#[tactic(auto, unfolding(theorems::specs::Alone::left_by))]
pub fn left(f: Fate, s: Source) -> Source
    ensures { result ≡ left_by f s }
{
    match f {
        Fate::Taken => Source { ip: true, ..s },
        Fate::Kept => Source { hidden: true, ..s },
        Fate::Nothing | Fate::Lost => s,
    }
}

// A port's source after a step in which its pattern q matches or not, and did so at the step before, or not.
#[tactic(auto, unfolding(rules::specs::Patterns::event_by, rules::specs::Patterns::hides_by, theorems::specs::Alone::struck_by))]
pub fn matched(q: Pattern, pmf: bool, matches: bool, s: Source) -> Source
    ensures { result ≡ struck_by (hides_by q) (event_by q pmf matches) s }
{
    let priority = q.mode / 2 % 4 == 3;
    let happens = matches & (priority | !pmf);
    left(fate(q.ioe & !priority, happens, s), s)
}
