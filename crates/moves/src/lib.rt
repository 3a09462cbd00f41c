// The bytes of a port with handshake: taken at a strobe and given at a read; stored at a write and left at an acknowledge.
#![tactic(auto)]

ghost use Rattle.std.specs.Prelude.{◌≡◌, true, false, ◌<◌, ltb, if◌then◌else◌, ◌==◌};
ghost use Rattle.rules.specs.With.{with_transfer, with_unfinished};
ghost use Rattle.rules.specs.Record.{transfer_at};
ghost use Rattle.rules.specs.Registers.{ip_cleared};
ghost use Rattle.rules.specs.Handshakes.{itb, sb, strobed};
ghost use Rattle.rules.specs.Moves.{joined, shifted, held_at, put_at, asked_if, works_at, can_move, falls, asks_in, taken_at, asks_out, left_at, moves_at, moves_of, served_by, pair_by, given_at, stored_at};

use basics::Place;
use rules::{Device, Pattern, Source, Transfer};

const A: Place<2> = Place { at: 0 };

const B: Place<2> = Place { at: 1 };

fn has_itb(q: Pattern) -> bool
    ensures { result ≡ itb q }
{
    q.mode / 32 % 2 == 1
}

fn has_sb(q: Pattern) -> bool
    ensures { result ≡ sb q }
{
    q.mode / 16 % 2 == 1
}

fn is_strobed(q: Pattern) -> bool
    ensures { result ≡ strobed q }
{
    q.handshake / 64 == 1
}

// The bytes held with b behind them.
#[tactic(auto, unfolding(rules::specs::Moves::joined))]
fn join(b: u8, t: Transfer, unfinished: bool, pair: bool) -> Transfer
    ensures { result ≡ joined b t unfinished pair }
{
    if t.bytes == 0 {
        return Transfer {
            front: b,
            behind: 0,
            bytes: 1,
            unfinished,
            pair,
        };
    }
    Transfer {
        front: t.front,
        behind: b,
        bytes: 2,
        unfinished,
        pair,
    }
}

// Without the front byte: the byte behind moves up.
#[tactic(auto, unfolding(rules::specs::Moves::shifted))]
fn shift(t: Transfer, unfinished: bool, pair: bool) -> Transfer
    ensures { result ≡ shifted t unfinished pair }
{
    Transfer {
        front: t.behind,
        behind: 0,
        bytes: basics::weight(t.bytes == 2, 1),
        unfinished,
        pair,
    }
}

// What port p holds, and its source.
#[tactic(auto, unfolding(rules::specs::Moves::held_at))]
fn hold(d: Device, p: Place<2>, t: Transfer, s: Source) -> Device
    ensures { result ≡ held_at d p t s }
{
    let mut e = d;
    e.transfers[p.index()] = t;
    e.sources[Source::of_port(p.index())] = s;
    e
}

// A byte to the pins of port p, where `goes` says so.
#[tactic(auto, unfolding(rules::specs::Moves::put_at))]
fn put_if(goes: bool, d: Device, p: Place<2>, b: u8) -> Device
    ensures { result ≡ (if goes then put_at d p b else d) }
{
    let mut e = d;
    if goes {
        e.ports[p.index()].output = b;
    }
    e
}

// What a move makes of IP.
#[tactic(auto, unfolding(rules::specs::Moves::asked_if))]
fn ask_if(asks: bool, s: Source) -> Source
    ensures { result ≡ asked_if asks s }
{
    if asks {
        return Source { ip: true, ..s };
    }
    s
}

// Whether the handshake of port p is at work.
#[tactic(auto, unfolding(rules::specs::Moves::works_at))]
fn works_at(d: Device, p: Place<2>) -> bool
    ensures { result ≡ works_at d p }
{
    let i = p.index();
    ports::handshakes(d.patterns[i]) & levels::port_enabled(d, i) & levels::port_enabled(d, 2)
}

// Whether there is room for a byte, or a byte to leave.
#[tactic(auto, unfolding(rules::specs::Moves::can_move))]
fn can_move(q: Pattern, t: Transfer) -> bool
    ensures { result ≡ can_move q t }
{
    if ports::inputs(q) {
        return t.bytes < ports::depth(q);
    }
    t.bytes != 0
}

// Whether ACKIN falls while the port offers to move a byte, from the record d0 before the step to d after its direct effect.
#[tactic(auto, unfolding(rules::specs::Moves::falls))]
fn falls_at(d0: Device, d: Device, p: Place<2>) -> bool
    ensures { result ≡ falls d0 d p }
{
    let i = p.index();
    works_at(d0, p)
        & works_at(d, p)
        & levels::offers_at(d0, i)
        & can_move(d.patterns[i], d.transfers[i])
        & (!levels::ackin_at(d, i) & levels::ackin_at(d0, i))
}

// Whether the byte that comes to those held asks for an interrupt, and the byte that leaves them.
#[tactic(auto, unfolding(rules::specs::Moves::asks_in))]
fn asks_in(q: Pattern, t: Transfer) -> bool
    ensures { result ≡ asks_in q t }
{
    if has_itb(q) {
        return t.bytes == 1;
    }
    t.bytes == 0
}

#[tactic(auto, unfolding(rules::specs::Moves::asks_out))]
fn asks_out(q: Pattern, t: Transfer) -> bool
    ensures { result ≡ asks_out q t }
{
    if has_itb(q) | has_sb(q) {
        return t.bytes == 1;
    }
    t.bytes == 2
}

// The byte at the pins is taken.
#[tactic(auto, unfolding(rules::specs::Moves::taken_at))]
fn take(d: Device, p: Place<2>) -> Device
    ensures { result ≡ taken_at d p }
{
    let i = p.index();
    let q = d.patterns[i];
    let t = d.transfers[i];
    let s = d.sources[Source::of_port(i)];
    let taken = join(levels::path_at(d, i), t, !is_strobed(q), t.pair);
    hold(d, p, taken, ask_if(asks_in(q, t), s))
}

// The byte at the pins leaves; the byte behind moves up to them.
#[tactic(auto, unfolding(rules::specs::Moves::left_at))]
fn leave(d: Device, p: Place<2>) -> Device
    ensures { result ≡ left_at d p }
{
    let i = p.index();
    let q = d.patterns[i];
    let t = d.transfers[i];
    let s = d.sources[Source::of_port(i)];
    let left = shift(t, !is_strobed(q), t.pair);
    let e = put_if(t.bytes == 2, d, p, t.behind);
    hold(e, p, left, ask_if(asks_out(q, t), s))
}

// ACKIN at 1 ends the transfer that is unfinished.
fn finish(d: Device, p: Place<2>) -> Device
    ensures { result ≡ with_transfer d p (with_unfinished (transfer_at d p) false) }
{
    let mut e = d;
    e.transfers[p.index()].unfinished = false;
    e
}

#[tactic(auto, unfolding(rules::specs::Moves::moves_at))]
fn moves_at(p: Place<2>, d0: Device, d: Device) -> Device
    ensures { result ≡ moves_at p d0 d }
{
    if falls_at(d0, d, p) {
        if ports::inputs(d.patterns[p.index()]) {
            return take(d, p);
        }
        return leave(d, p);
    }
    if works_at(d, p) & levels::ackin_at(d, p.index()) {
        return finish(d, p);
    }
    d
}

// The moves of both ports, from the record before the step and the one after its direct effect.
#[tactic(auto, unfolding(rules::specs::Moves::moves_of))]
pub fn moves(d0: Device, d1: Device) -> Device
    ensures { result ≡ moves_of d0 d1 }
{
    if works_at(d1, A) | works_at(d1, B) {
        return moves_at(B, d0, moves_at(A, d0, d1));
    }
    d1
}

// What a read or a write makes of IP: cleared, as by command 5, but at the first of a pair.
#[tactic(auto, unfolding(rules::specs::Moves::served_by, rules::specs::Registers::commanded))]
fn serve(q: Pattern, t: Transfer, s: Source) -> Source
    ensures { result ≡ served_by q t s }
{
    if has_itb(q) & !t.pair {
        return s;
    }
    sources::command(s, 5)
}

// Whether it leaves a pair half done.
#[tactic(auto, unfolding(rules::specs::Moves::pair_by))]
fn halves(q: Pattern, t: Transfer, s: Source) -> bool
    ensures { result ≡ pair_by q t s }
{
    has_itb(q) & s.ip & !t.pair
}

#[tactic(auto, unfolding(rules::specs::Moves::given_at))]
fn given_at(d: Device, p: Place<2>) -> Device
    ensures { result ≡ given_at d p }
{
    let i = p.index();
    let q = d.patterns[i];
    let t = d.transfers[i];
    let s = d.sources[Source::of_port(i)];
    let rest = shift(t, t.unfinished, halves(q, t, s));
    let asks = !has_itb(q) & (t.bytes == 2);
    hold(d, p, rest, ask_if(asks, serve(q, t, s)))
}

// The record after a read of the data of port p; past the two ports as it was.
#[tactic(auto, unfolding(rules::specs::Moves::given_at, rules::specs::Moves::held_at))]
pub fn given(d: Device, p: usize) -> Device
    ensures { result ≡ given_at d p }
{
    match Place::of(p) {
        Some(p) => given_at(d, p),
        None => d,
    }
}

#[tactic(auto, unfolding(rules::specs::Moves::stored_at))]
fn stored_at(d: Device, p: Place<2>, b: u8) -> Device
    ensures { result ≡ stored_at d p b }
{
    let i = p.index();
    let q = d.patterns[i];
    let t = d.transfers[i];
    let s = d.sources[Source::of_port(i)];
    let held = join(b, t, t.unfinished, halves(q, t, s));
    let asks = !has_itb(q) & !has_sb(q) & (t.bytes == 0);
    let e = put_if(t.bytes == 0, d, p, b);
    hold(e, p, held, ask_if(asks, serve(q, t, s)))
}

// The record after a byte is written to the data of output port p, A or B; past them as it was.
pub fn stored(d: Device, p: usize, b: u8) -> Device
    ensures { result ≡ (if ltb p 2 then stored_at d p b else d) }
{
    match Place::of(p) {
        Some(p) => stored_at(d, p, b),
        None => d,
    }
}
