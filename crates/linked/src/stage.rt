// One timer clock of CT1, CT2 and Port B's side.
ghost use Rattle.std.specs.Prelude.{◌≡◌, ◌<◌};
ghost use Rattle.theorems.specs.Moving.{pair_of};
ghost use Rattle.linked.specs.Stage.{showing, shown_with, stage_of, turn_on, link_on, seen_on, paired_on};

use basics::Place;
use counters::Inputs;
use rules::{Counted, Counter, Device, Link, Pattern, Source};
use theorems::{Pair, Side};

// What stays in a run: the version, LC, whether the two counters are enabled and their lines; whether Port B is enabled, its pattern, and
// what it sees with the outputs of CT1 and CT2 at 0 and 0, 0 and 1, 1 and 0, 1 and 1.
#[derive(Clone, Copy)]
pub struct Stage {
    pub version: u8,
    pub lc: u8,
    pub enabled: [bool; 2],
    pub lines: [u8; 2],
    pub watched: bool,
    pub pattern: Pattern,
    pub seen: [u8; 4],
}

// A counter with its output at v.
#[tactic(auto, unfolding(crate::specs::Stage::showing))]
fn show(v: bool, c: Counter) -> Counter
    ensures { result ≡ showing v c }
{
    Counter {
        count: 1,
        cip: v,
        half: v,
        pulse: v,
        ..c
    }
}

#[tactic(auto, unfolding(crate::specs::Stage::shown_with, theorems::specs::Moving::seen_with))]
fn shown(d: Device, a: bool, b: bool) -> u8
    ensures { result ≡ shown_with d a b }
{
    let [one, two, three] = d.counters;
    let counters = [show(a, one), show(b, two), three];
    levels::seen_at(Device { counters, ..d }, 1)
}

#[tactic(auto, unfolding(theorems::specs::Moving::pair_of, theorems::specs::Moving::side_at))]
pub(crate) fn pair(d: Device) -> Pair
    ensures { result ≡ pair_of d }
{
    Pair {
        one: d.counters[0],
        two: d.counters[1],
        terminals: 0,
        side: Side {
            pmf: d.patterns[1].pmf,
            source: d.sources[Source::B],
        },
    }
}

impl Stage {
    #[tactic(auto, unfolding(crate::specs::Stage::stage_of))]
    pub(crate) fn of(d: Device) -> Self
        ensures { result ≡ stage_of d }
    {
        Stage {
            version: d.version,
            lc: d.config % 4,
            enabled: [
                levels::counter_on(d.config, 0),
                levels::counter_on(d.config, 1),
            ],
            lines: [step::lines_at(d, 0), step::lines_at(d, 1)],
            watched: levels::port_enabled(d, 1),
            pattern: d.patterns[1],
            seen: [
                shown(d, false, false),
                shown(d, false, true),
                shown(d, true, false),
                shown(d, true, true),
            ],
        }
    }

    // The turn of a counter c that stands at i.
    #[tactic(auto, unfolding(crate::specs::Stage::turn_on))]
    fn turn(self, i: Place<2>, link: Link, c: Counter) -> Counted
        ensures { result ≡ turn_on self i link c }
    {
        let lines = self.lines[i.index()];
        let x = Inputs {
            link,
            timer: true,
            were: lines,
            are: lines,
        };
        counters::turn(self.version, self.enabled[i.index()], c, x)
    }

    #[tactic(auto, unfolding(crate::specs::Stage::link_on))]
    fn link(self, before: Counter, after: Counter) -> Link
        ensures { result ≡ link_on self before after }
    {
        step::link(
            self.lc,
            counters::output(self.version, before),
            counters::output(self.version, after),
        )
    }

    #[tactic(auto, unfolding(crate::specs::Stage::seen_on))]
    fn seen(self, one: Counter, two: Counter) -> u8
        ensures { result ≡ seen_on self one two }
    {
        let a = counters::output(self.version, one);
        let b = counters::output(self.version, two);
        self.seen[2 * usize::from(a) + usize::from(b)]
    }

    // One timer clock.
    #[tactic(auto, unfolding(crate::specs::Stage::paired_on, crate::specs::Stage::side_on, step::specs::Parts::pattern_by))]
    pub(crate) fn clock(self, x: Pair) -> Pair
        requires { x.terminals < 4294967295 }
        ensures { result ≡ paired_on self x }
    {
        let one = self.turn(Place { at: 0 }, step::UNLINKED, x.one).counter;
        let two = self.turn(Place { at: 1 }, self.link(x.one, one), x.two);
        let before = self.seen(x.one, x.two);
        let after = self.seen(one, two.counter);
        Pair {
            one,
            two: two.counter,
            terminals: x.terminals + u32::from(two.terminal),
            side: step::side(self.watched, self.pattern, before, after, x.side),
        }
    }
}
