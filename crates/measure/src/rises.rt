// The clock of a T at which an IP rises: inside a T no IP falls, so it is found by halves.
ghost use Rattle.std.specs.Prelude.{◌≡◌, ℕ, ◌+◌, ◌<◌, ◌≤◌, true, false};
ghost use Rattle.rules.specs.declared.Device.{Device as Record};
ghost use Rattle.rules.specs.Record.{source_at};
ghost use Rattle.measure.specs.Rise.{ip_after, Rises, Between};

use basics::Place;
use rules::Device;

// A record with IP 0, the clocks that it is past the T's first, and after how many more IP is 1.
#[derive(Clone, Copy)]
pub struct Search {
    pub device: Device,
    pub passed: u32,
    pub left: u32,
}

// Half of the clocks that are left.
fn halved(k: Place<5>, s: Search) -> Search
    requires { (1 < s.left) × (s.passed + s.left ≤ 4294967295) }
    ensures { ((d : Record) (n : ℕ) → Between k d n s → Between k d n result) × (result.left < s.left) }
{
    let half = s.left / 2;
    let there = clocks::run(half, s.device).device;
    let i = k.index();
    if there.sources[i].ip {
        return Search { left: half, ..s };
    }
    Search {
        device: there,
        passed: s.passed + half,
        left: s.left - half,
    }
}

// Of n clocks, the one at which IP of source k rises.
pub(crate) fn rise(k: Place<5>, device: Device, n: u32) -> u32
    requires { (0 < n) × (ip_after k device 0 ≡ false) × (ip_after k device n ≡ true) }
    ensures { Rises k device n result }
{
    let mut s = Search {
        device,
        passed: 0,
        left: n,
    };
    // Stays: no index is counted, what is left is halved.
    while 1 < s.left {
        s = halved(k, s);
    }
    s.passed + s.left
}
