// The vector of one source, with status and without.
ghost use Rattle.std.specs.Prelude.{◌≡◌, ◌<◌};
ghost use Rattle.rules.specs.Record.{vector_at, pattern_at};
ghost use Rattle.rules.specs.Handshakes.{irf_at, ore_at};
ghost use Rattle.rules.specs.Interrupts.{vector_of, counter_status, port_status, priority_status, highest_at, port_vector, with_status, vector_for};

use basics::Place;
use rules::{Device, Source};

// The vector register of source k: 0 A, 1 B, 2 CT.
#[tactic(auto, unfolding(rules::specs::Interrupts::vector_of))]
fn vector_of(k: Place<5>) -> Place<3>
    ensures { result ≡ vector_of k }
{
    match k.index() {
        Source::A => Place { at: 0 },
        Source::B => Place { at: 1 },
        _ => Place { at: 2 },
    }
}

// A counter's vector with status; n is 0 for CT3, 1 for CT2, 2 for CT1.
#[tactic(auto, unfolding(rules::specs::Interrupts::counter_status))]
fn counter_vector(base: u8, n: usize, err: bool) -> u8
    ensures { result ≡ counter_status base n err }
{
    if err {
        return base / 8 * 8 + 6 + base % 2;
    }
    base / 8 * 8 + 2 * ((n % 4) as u8) + base % 2
}

// A port's vector with status.
#[tactic(auto, unfolding(rules::specs::Interrupts::port_status))]
fn port_vector(base: u8, ore: bool, irf: bool, pmf: bool, err: bool) -> u8
    ensures { result ≡ port_status base ore irf pmf err }
{
    if err {
        return base / 16 * 16 + base % 2;
    }
    let state = basics::weight(ore, 8) + basics::weight(irf, 4);
    base / 16 * 16 + state + basics::weight(pmf, 2) + base % 2
}

// Vector v: A, B, CT, and past them 0.
pub(crate) fn vector_at(d: Device, v: usize) -> u8
    ensures { result ≡ vector_at d v }
{
    d.vectors.get(v).copied().unwrap_or(0)
}

fn irf_at(d: Device, p: Place<2>) -> bool
    ensures { result ≡ irf_at d p }
{
    ports::irf(d.patterns[p.index()], d.transfers[p.index()])
}

fn ore_at(d: Device, p: Place<2>) -> bool
    ensures { result ≡ ore_at d p }
{
    ports::ore(d.patterns[p.index()], d.transfers[p.index()])
}

#[tactic(auto, unfolding(rules::specs::Interrupts::highest_at))]
fn highest_at(d: Device, p: Place<2>) -> u8
    ensures { result ≡ highest_at d p }
{
    let p = p.index();
    ports::highest(
        levels::port_enabled(d, p),
        d.patterns[p],
        levels::seen_at(d, p),
    )
}

// A port's vector with the number of its highest matching bit.
#[tactic(auto, unfolding(rules::specs::Interrupts::priority_status))]
fn priority_vector(base: u8, n: u8) -> u8
    requires { n < 8 }
    ensures { result ≡ priority_status base n }
{
    base / 16 * 16 + 2 * n + base % 2
}

// The vector of port p with status.
#[tactic(auto, unfolding(rules::specs::Interrupts::highest_at, rules::specs::Patterns::highest_match, rules::specs::Interrupts::port_vector))]
fn port_status(d: Device, p: Place<2>, base: u8, err: bool) -> u8
    ensures { result ≡ port_vector d p base err }
{
    let q = d.patterns[p.index()];
    let priority = q.mode / 2 % 4 == 3;
    if priority {
        return priority_vector(base, highest_at(d, p));
    }
    port_vector(base, ore_at(d, p), irf_at(d, p), q.pmf, err)
}

// The vector of source k with status. Ports have the odd places.
#[tactic(auto, unfolding(rules::specs::Interrupts::with_status))]
pub(crate) fn with_status(d: Device, k: Place<5>) -> u8
    ensures { result ≡ with_status d k }
{
    let base = d.vectors[vector_of(k).index()];
    let k = k.index();
    let err = d.sources[k].err;
    let of_port = k % 2 == 1;
    if of_port {
        return port_status(d, Place { at: k / 2 }, base, err);
    }
    counter_vector(base, k / 2, err)
}

// The vector of source k, with status if its VIS says so.
#[tactic(auto, unfolding(rules::specs::Interrupts::vector_for, rules::specs::Registers::vis))]
pub(crate) fn vector_for(d: Device, k: Place<5>) -> u8
    ensures { result ≡ vector_for d k }
{
    let v = vector_of(k).index();
    let vis = (d.master >> (4 - v)) % 2 == 1;
    if vis {
        return with_status(d, k);
    }
    d.vectors[v]
}
