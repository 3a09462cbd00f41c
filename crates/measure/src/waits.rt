// The waits of one source.
ghost use Rattle.std.specs.Prelude.{◌≡◌};
ghost use Rattle.measure.specs.Wait.{begun as begun_of, dropped as dropped_of, moved as moved_of, least_with, greatest_with, added as added_of, counted as counted_of};

use crate::Wait;

pub(crate) fn begun(now: u32, w: Wait) -> Wait
    ensures { result ≡ begun_of now w }
{
    Wait {
        since: Some(now),
        ..w
    }
}

pub(crate) fn dropped(w: Wait) -> Wait
    ensures { result ≡ dropped_of w }
{
    Wait { since: None, ..w }
}

// A step: IP before and after it, whether it cleared IP in between, and the trace's clocks.
#[tactic(auto, unfolding(crate::specs::Wait::moved))]
pub(crate) fn moved(was: bool, cleared: bool, is: bool, now: u32, w: Wait) -> Wait
    ensures { result ≡ moved_of was cleared is now w }
{
    if is & (!was | cleared) {
        return begun(now, w);
    }
    if is {
        return w;
    }
    dropped(w)
}

#[tactic(auto, unfolding(crate::specs::Wait::least_with))]
fn least_with(n: u64, w: Wait) -> u64
    ensures { result ≡ least_with n w }
{
    if w.acknowledged == 0 {
        return n;
    }
    n.min(w.least)
}

#[tactic(auto, unfolding(crate::specs::Wait::greatest_with))]
fn greatest_with(n: u64, w: Wait) -> u64
    ensures { result ≡ greatest_with n w }
{
    n.max(w.greatest)
}

// One more, of n clocks.
fn added(n: u64, w: Wait) -> Wait
    ensures { result ≡ added_of n w }
{
    Wait {
        since: None,
        acknowledged: w.acknowledged.wrapping_add(1),
        least: least_with(n, w),
        greatest: greatest_with(n, w),
        sum: w.sum.wrapping_add(n),
    }
}

// An acknowledge.
#[tactic(auto, unfolding(crate::specs::Wait::counted))]
pub(crate) fn counted(now: u32, w: Wait) -> Wait
    ensures { result ≡ counted_of now w }
{
    match w.since {
        Some(since) => added(now.saturating_sub(since) as u64, w),
        None => w,
    }
}
