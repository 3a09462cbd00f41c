// A count that is always reloaded, over k counts, by division. `last` is the highest number that it holds; 0 is read as one more, in the count
// and in the constant.
ghost use Rattle.std.specs.Prelude.{◌≡◌, ◌+◌, ◌%◌, ◌<◌, ◌≤◌};
ghost use Rattle.theorems.specs.Free.{full_of, terminals_after, count_after};

#[tactic(auto, unfolding(theorems::specs::Free::full_of))]
pub(crate) fn full(last: u16, n: u16) -> u32
    ensures { (result ≡ full_of (last + 1) n) × (0 < result) × (result ≤ 65536) }
{
    match n {
        0 => (last as u32) + 1,
        _ => n as u32,
    }
}

// Its terminals.
#[tactic(auto, unfolding(theorems::specs::Free::terminals_after))]
pub fn terminals_after(last: u16, count: u16, constant: u16, k: u32) -> u32
    ensures { (result ≡ terminals_after (full_of (last + 1) count) (full_of (last + 1) constant) k) × (result ≤ k) }
{
    let first = full(last, count);
    if k < first {
        return 0;
    }
    1 + (k - first) / full(last, constant)
}

// What it stands at.
#[tactic(auto, unfolding(theorems::specs::Free::count_after))]
pub fn count_after(last: u16, count: u16, constant: u16, k: u32) -> u16
    ensures { result ≡ count_after (full_of (last + 1) count) (full_of (last + 1) constant) k % (last + 1) }
{
    let first = full(last, count);
    let each = full(last, constant);
    let n = if k < first {
        first - k
    } else {
        each - (k - first) % each
    };
    (n % ((last as u32) + 1)) as u16
}
