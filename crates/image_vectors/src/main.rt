// Restores the images on standard input, a line of hexadecimal digits for each, and prints the code of each; with 0 the image that
// saving its record writes. A line that begins with Z goes to the Z8536's restore.
#![tactic(auto)]

ghost use Rattle.std.specs.Prelude.{◌<◌};

use rules::Device;
use std::io::{Read, Write};
use streams::LARGE_BUFFER;
use z8536::Z8536;

// The bytes of a line so far, two digits to a byte, and whether it is for the Z8536; a longer line keeps its first 128.
// Stays: `digits` tells how much of `bytes` is filled, with no heap; `z8536` tells to which restore they go.
#[derive(Clone, Copy)]
struct Line {
    bytes: [u8; 128],
    digits: usize,
    z8536: bool,
}

fn empty() -> Line {
    Line {
        bytes: [0; 128],
        digits: 0,
        z8536: false,
    }
}

// A digit's value; what is no digit counts as 0.
fn digit(c: u8) -> u8
    ensures { result < 16 }
{
    match c {
        b'0'..=b'9' => c - b'0',
        b'a'..=b'f' => c - b'a' + 10,
        b'A'..=b'F' => c - b'A' + 10,
        _ => 0,
    }
}

fn with_digit(l: Line, c: u8) -> Line {
    let i = l.digits / 2;
    if i >= 128 {
        return l;
    }
    let mut m = l;
    m.bytes[i] = l.bytes[i] % 16 * 16 + digit(c);
    m.digits = 2 * i + l.digits % 2 + 1;
    m
}

fn print_byte<W: Write>(out: &mut W, x: u8) {
    let _ = out.write_all(&[texts::glyph(x / 16), texts::glyph(x)]);
}

fn print_bytes<W: Write>(out: &mut W, b: &[u8]) {
    for x in b {
        print_byte(out, *x);
    }
}

// A code; with 0 the image.
// Stays: the code is a number, since `Restored.code` is one and it is printed as it is.
fn print_code<W: Write>(out: &mut W, code: u8, image: &[u8]) {
    let _ = write!(out, "{code}");
    if code == 0 {
        let _ = out.write_all(b" ");
        print_bytes(out, image);
    }
    let _ = out.write_all(b"\n");
}

fn print_line<W: Write>(out: &mut W, l: Line) {
    let b = &l.bytes[..(l.digits / 2).min(128)];
    let mut buf = [0; Z8536::IMAGE];
    if l.z8536 {
        let r = image::restore_z8536(b);
        if r.code == 0 {
            let _ = image::save_z8536(r.device, &mut buf);
        }
        print_code(out, r.code, &buf);
    } else {
        let r = image::restore(b);
        if r.code == 0 {
            let _ = image::save(r.device, &mut buf);
        }
        let n = Device::image_len(r.device.version).min(buf.len());
        print_code(out, r.code, &buf[..n]);
    }
}

fn next<W: Write>(out: &mut W, l: Line, c: u8) -> Line {
    if c == b'\n' {
        print_line(out, l);
        return empty();
    }
    if c == b'Z' {
        return Line { z8536: true, ..l };
    }
    with_digit(l, c)
}

// The lines that end in a piece of the input; what is left is handed on.
fn print_codes<W: Write>(out: &mut W, l: Line, piece: &[u8]) -> Line {
    let mut m = l;
    for c in piece {
        m = next(out, m, *c);
    }
    m
}

// Reads once, prints what came, and hands on what is left of a line; at the end of the input nothing.
fn print_some<R: Read, W: Write>(
    out: &mut W,
    l: Line,
    input: &mut R,
    text: &mut [u8],
) -> Option<Line> {
    let n = streams::read_full(input, text);
    if n == 0 {
        return None;
    }
    Some(print_codes(out, l, &text[..n]))
}

// (A proved loop has to end: its turns are counted.)
fn main(rt: HostRuntime) {
    let mut input = rt.stdin();
    let mut out = rt.stdout();
    let mut text = [0; LARGE_BUFFER];
    let mut l = empty();
    for _ in 0..u64::MAX {
        match print_some(&mut out, l, &mut input, &mut text) {
            Some(left) => l = left,
            None => return,
        }
    }
}
