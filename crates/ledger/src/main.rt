// Codes through Port B over three nights, and their ledger. The host writes the next code where ORE has room; the outside takes the
// byte at the pins while DAV is shown, and acknowledges it at its own pace; each night the device is saved and restored.
#![tactic(auto)]

use rules::{Device, Event, Outcome};
use std::io::Write;

// How many codes there are, and how many beats are between two nights.
const CODES: usize = 24;

const BEATS: u32 = 20;

// The device, the next code to be written, whether ACKIN is low, and how often each code was written and has left.
#[derive(Clone, Copy)]
struct Ledger {
    device: Device,
    next: usize,
    low: bool,
    written: [u8; CODES],
    left: [u8; CODES],
}

// Code i: the codes are told apart by their number.
fn code(i: usize) -> u8 {
    0x40 + (i % CODES) as u8
}

// Writes a byte in hexadecimal behind a word.
fn say<W: Write>(out: &mut W, word: &[u8], b: u8) {
    let _ = out.write_all(word);
    let _ = out.write_all(&[texts::glyph(b / 16), texts::glyph(b % 16), b'\n']);
}

// One more of byte b, if it is a code.
fn counted(of: [u8; CODES], b: u8) -> [u8; CODES] {
    let mut n = of;
    if b >= 0x40 {
        let i = (b - 0x40) as usize;
        if i < CODES {
            n[i] = (of[i] % 255) + 1;
        }
    }
    n
}

// Stays: the kind is a number, as an event's is (rules::Event).
fn ask(d: Device, kind: u32, a: u32, b: u32, c: u32) -> Outcome<Device> {
    event::event(d, Event { kind, a, b, c })
}

// Port B as an Interlocked output port of two bytes, with ACKIN high.
fn set_up() -> Device {
    let d0 = Device::fresh();
    let d1 = ask(d0, Event::W, 0x00, 0x00, 0).device;
    let d2 = ask(d1, Event::W, 0x28, 0x80, 0).device;
    let d3 = ask(d2, Event::P, 0x00, 0x00, 0x01).device;
    ask(d3, Event::W, 0x01, 0x90, 0).device
}

// The host: the next code is written where D3 of 09, ORE, is 1.
fn host<W: Write>(out: &mut W, l: Ledger) -> Ledger {
    if l.next >= CODES {
        return l;
    }
    let r = ask(l.device, Event::R, 0x09, 0, 0);
    let ore = r.answer.value / 8 % 2 == 1;
    if !ore {
        return l;
    }
    let b = code(l.next);
    let w = ask(l.device, Event::W, 0x0E, b as u32, 0);
    if w.answer.code != 0 {
        return l;
    }
    say(out, b"written ", b);
    Ledger {
        device: w.device,
        next: l.next + 1,
        written: counted(l.written, b),
        ..l
    }
}

// The outside: ACKIN falls while DAV, at PC1, is low, and the byte at the pins is taken; the next time it rises.
fn outside<W: Write>(out: &mut W, l: Ledger) -> Ledger {
    if l.low {
        return Ledger {
            device: ask(l.device, Event::P, 0x00, 0x00, 0x01).device,
            low: false,
            ..l
        };
    }
    let seen = ask(l.device, Event::T, 0, 0, 0);
    let offered = seen.answer.c / 2 % 2 == 0;
    if !offered {
        return l;
    }
    let b = seen.answer.b;
    say(out, b"left    ", b);
    Ledger {
        device: ask(l.device, Event::P, 0x00, 0x00, 0x00).device,
        low: true,
        left: counted(l.left, b),
        ..l
    }
}

// One beat: the host at each, the outside at two of five.
fn beat<W: Write>(out: &mut W, l: Ledger, k: u32) -> Ledger {
    let asked = host(out, l);
    if k % 5 < 2 {
        return outside(out, asked);
    }
    asked
}

fn day<W: Write>(out: &mut W, l: Ledger) -> Ledger {
    let mut m = l;
    for k in 0..BEATS {
        m = beat(out, m, k);
    }
    m
}

// A night: the device is saved, and the one of the next morning is restored from the bytes.
fn night<W: Write>(out: &mut W, l: Ledger) -> Ledger {
    let mut bytes = [0; Device::IMAGE];
    let saved = image::save(l.device, &mut bytes);
    let morning = image::restore(&bytes);
    say(out, b"saved    ", rules::code(saved));
    say(out, b"restored ", morning.code);
    Ledger {
        device: morning.device,
        ..l
    }
}

// The ledger: each code, how often it was written and how often it has left.
fn print_ledger<W: Write>(out: &mut W, l: Ledger) {
    for i in 0..CODES {
        say(out, b"code ", code(i));
        say(out, b"  written ", l.written[i]);
        say(out, b"  left    ", l.left[i]);
    }
}

fn main(rt: HostRuntime) {
    let mut out = rt.stdout();
    let mut l = Ledger {
        device: set_up(),
        next: 0,
        low: false,
        written: [0; CODES],
        left: [0; CODES],
    };
    for _ in 0..3u8 {
        let evening = day(&mut out, l);
        l = night(&mut out, evening);
    }
    for _ in 0..3u8 {
        l = day(&mut out, l);
    }
    print_ledger(&mut out, l);
}
