// What a reset leaves of a record, and whether two records are the same.
#![tactic(auto)]

ghost use Rattle.std.specs.Prelude.{◌≡◌};
ghost use Rattle.rules.specs.Record.{reset_of};
ghost use Rattle.rules.specs.Sound.{same_source, same_counter, same_of};

use rules::{Counter, Device, Lines, Port, Source};

// What a reset leaves.
#[tactic(auto, unfolding(rules::specs::Record::reset_of))]
pub fn reset(d: Device) -> Device
    ensures { result ≡ reset_of d }
{
    Device {
        version: d.version,
        ports: d.ports.map(|q| Port {
            outside: q.outside,
            ..Port::default()
        }),
        iei: d.iei,
        lines: Lines {
            int: false,
            ieo: d.iei,
            place: 0,
        },
        ..Device::fresh()
    }
}

#[tactic(auto, unfolding(rules::specs::Sound::same_source))]
pub fn same_source(s: Source, t: Source) -> bool
    ensures { result ≡ same_source s t }
{
    s == t
}

#[tactic(auto, unfolding(rules::specs::Sound::same_counter))]
pub fn same_counter(c: Counter, e: Counter) -> bool
    ensures { result ≡ same_counter c e }
{
    c == e
}

pub fn same(d: Device, e: Device) -> bool
    ensures { result ≡ same_of d e }
{
    d == e
}
