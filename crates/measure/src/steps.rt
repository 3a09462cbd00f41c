// What an accepted event does to the measure, source by source.
ghost use Rattle.std.specs.Prelude.{◌≡◌, ◌+◌, ◌<◌, ◌≤◌};
ghost use Rattle.rules.specs.Record.{source_at};
ghost use Rattle.rules.specs.Interrupts.{relined};
ghost use Rattle.rules.specs.Step.{ran_of};
ghost use Rattle.measure.specs.Wait.{moved as moved_of};
ghost use Rattle.measure.specs.Measure.{wait_at, most_clocks, stepped as stepped_of, clears_by, clears_by_data, clears as clears_of, ticked as ticked_of, taken as taken_of};
ghost use Rattle.measure.specs.Rise.{waited};

use crate::{Measure, Wait, rises, waits};
use basics::Place;
use rules::{Device, Event, Source};

// Whether an event clears IP of the source with this command register.
fn clears(e: Event, command: u32) -> bool
    ensures { result ≡ clears_by e command }
{
    let n = e.b / 32;
    (e.kind == Event::W) & (e.a == command) & ((n == 1) | (n == 5))
}

// Whether it reads or writes the data of port p, which clears IP: with ITB the second of a pair.
fn clears_by_data(d: Device, e: Event, p: Place<2>) -> bool
    ensures { result ≡ clears_by_data d e p }
{
    let i = p.index();
    let q = d.patterns[i];
    let itb = q.mode / 32 % 2 == 1;
    let reads = (e.kind == Event::R) & ports::inputs(q);
    let writes = (e.kind == Event::W) & ports::outputs(q) & levels::port_enabled(d, i);
    (reads | writes) & (e.a == 0x0D + (i as u32)) & (!itb | d.transfers[i].pair)
}

// Source k in a step from d to f.
// Stays: from d to f, by the measure m, as the definitions take them (measure/Measure.stepped, measure/Measure.ticked).
fn stepped_at(k: Place<5>, cleared: bool, d: Device, f: Device, m: Measure) -> Wait
    ensures { result ≡ moved_of (source_at d k).ip cleared (source_at f k).ip m.clocks (wait_at m k) }
{
    let i = k.index();
    waits::moved(
        d.sources[i].ip,
        cleared,
        f.sources[i].ip,
        m.clocks,
        m.waits[i],
    )
}

// A step, or what is no clock and no K, from d to f.
// Stays: from d to f, by the measure m, as the definitions take them (measure/Measure.stepped, measure/Measure.ticked).
#[tactic(auto, unfolding(crate::specs::Measure::stepped))]
pub(crate) fn stepped(e: Event, d: Device, f: Device, m: Measure) -> Measure
    ensures { result ≡ stepped_of (clears_of d e) d f m }
{
    Measure {
        waits: [
            stepped_at(Place { at: Source::CT3 }, clears(e, 0x0C), d, f, m),
            stepped_at(
                Place { at: Source::A },
                clears(e, 0x08) | clears_by_data(d, e, Place { at: 0 }),
                d,
                f,
                m,
            ),
            stepped_at(Place { at: Source::CT2 }, clears(e, 0x0B), d, f, m),
            stepped_at(
                Place { at: Source::B },
                clears(e, 0x09) | clears_by_data(d, e, Place { at: 1 }),
                d,
                f,
                m,
            ),
            stepped_at(Place { at: Source::CT1 }, clears(e, 0x0A), d, f, m),
        ],
        ..m
    }
}

// Source k over the n clocks of a T, from d to f.
// Stays: f is the record that the event call left, handed on so that its clocks are not run twice; the definition runs them (measure/Measure.ticked).
#[tactic(auto, unfolding(rules::specs::Interrupts::relined))]
fn over(k: Place<5>, n: u32, d: Device, f: Device, m: Measure) -> Wait
    requires { (0 < n) × (f ≡ relined (ran_of n d).device) × (m.clocks + n ≤ most_clocks) }
    ensures { result ≡ waited k d m.clocks (wait_at m k) n }
{
    let i = k.index();
    let w = m.waits[i];
    if d.sources[i].ip {
        return w;
    }
    if f.sources[i].ip {
        let r = rises::rise(k, d, n);
        return waits::begun(m.clocks + r, w);
    }
    waits::dropped(w)
}

// T n, from d to f.
// Stays: f is the record that the event call left, handed on so that its clocks are not run twice; the definition runs them (measure/Measure.ticked).
#[tactic(auto, unfolding(crate::specs::Measure::ticked))]
pub(crate) fn ticked(n: u32, d: Device, f: Device, m: Measure) -> Measure
    requires { (f ≡ relined (ran_of n d).device) × (m.clocks + n ≤ most_clocks) }
    ensures { result ≡ ticked_of n d m }
{
    if n == 0 {
        return m;
    }
    // Stays: by a `map` over the five places what `over` requires was not proved at each.
    Measure {
        clocks: m.clocks + n,
        waits: [
            over(Place { at: Source::CT3 }, n, d, f, m),
            over(Place { at: Source::A }, n, d, f, m),
            over(Place { at: Source::CT2 }, n, d, f, m),
            over(Place { at: Source::B }, n, d, f, m),
            over(Place { at: Source::CT1 }, n, d, f, m),
        ],
    }
}

// K.
#[tactic(auto, unfolding(crate::specs::Measure::taken))]
pub(crate) fn taken(d: Device, m: Measure) -> Measure
    ensures { result ≡ taken_of d m }
{
    let mut r = m;
    if let Some(k) = interrupts::requester_of(d) {
        r.waits[k.index()] = waits::counted(m.clocks, m.waits[k.index()]);
    }
    r
}
