// Nights and devices in words, one after the other: what `show` prints of four images, a night with one argument, a night
// refused in each way, a night cut in three, a night between two long runs, one of a version 1 device, one with a
// handshake, one of a Z8536, one of a CTC, and one between long runs by division, and by leaps and rounds.
#![tactic(auto)]

use std::io::Write;

fn show(rt: &HostRuntime, path: &[u8]) {
    image_files::show(rt, path, &mut rt.stdout(), &mut rt.stdout());
}

// The fresh device, counters and ports at work in the evening, a source that requests, and the same source served.
fn shown(rt: &HostRuntime) {
    show(rt, b"shown/fresh");
    show(rt, b"shown/busy");
    show(rt, b"shown/asking");
    show(rt, b"shown/served");
}

fn night(rt: &HostRuntime, from: &[u8], to: &[u8], trace: &[u8]) {
    let _ = image_files::night_of(rt, from, to, trace, &mut rt.stdout(), &mut rt.stdout());
}

fn refused(rt: &HostRuntime, from: &[u8], to: &[u8]) {
    night(rt, from, to, b"two_lines");
}

// A night refused in each way. The file `kept` stays as it is, which the last night shows: it runs on it.
fn refusals(rt: &HostRuntime) {
    refused(rt, b"missing", b"kept");
    refused(rt, b".", b"kept");
    refused(rt, b"empty", b"kept");
    refused(rt, b"short", b"kept");
    refused(rt, b"long", b"kept");
    refused(rt, b"short2", b"kept");
    refused(rt, b"long2", b"kept");
    refused(rt, b"short3", b"kept");
    refused(rt, b"long3", b"kept");
    refused(rt, b"contents", b"kept");
    refused(rt, b"unsound", b"kept");
    refused(rt, b"kept", b"missing/kept");
    refused(rt, b"kept", b"kept/kept");
    refused(rt, b"kept", b"folder");
    refused(rt, b"kept", b"kept");
}

// Whether two image files hold the same device.
fn print_same(rt: &HostRuntime, one: &[u8], other: &[u8]) {
    let a = image_files::load(rt, one, &mut rt.stdout());
    let b = image_files::load(rt, other, &mut rt.stdout());
    let alike = matches!((a, b), (Ok(c), Ok(d)) if c == d);
    let _ = rt
        .stdout()
        .write_all(if alike { b"same\n" } else { b"lost\n" });
}

// A night cut in three parts, on an image file that is both IN and OUT, and the same trace uncut.
fn in_parts(rt: &HostRuntime) {
    night(rt, b"-", b"cut", b"parts/evening");
    night(rt, b"cut", b"cut", b"parts/midnight");
    night(rt, b"cut", b"cut", b"parts/morning");
    night(rt, b"-", b"uncut", b"parts/whole");
    print_same(rt, b"cut", b"uncut");
}

// A trace uncut, and the same trace with a night in its middle. At the cut: a square counter in its second half, an odd
// number of clocks, errors hidden behind pending interrupts, a count frozen, a catcher set under a low pin. Thousands of
// millions of clocks on both sides.
fn between_long_runs(rt: &HostRuntime) {
    night(rt, b"-", b"uncut", b"overnight/whole");
    night(rt, b"-", b"cut", b"overnight/evening");
    night(rt, b"cut", b"cut", b"overnight/morning");
    print_same(rt, b"uncut", b"cut");
}

// A night of a version 1 device goes on as before, and ends in an image of version 1. Its trace asks for handshakes too,
// which the device refuses.
fn of_old(rt: &HostRuntime) {
    night(rt, b"old/evening", b"old/morning", b"old/trace");
    print_same(rt, b"old/morning", b"old/end");
}

// A handshake port that holds two bytes over the night, and a counter whose pulse is high.
fn with_handshake(rt: &HostRuntime) {
    night(rt, b"-", b"held", b"handshake/evening");
    show(rt, b"held");
    night(rt, b"held", b"held", b"handshake/morning");
    night(rt, b"-", b"unbroken", b"handshake/whole");
    print_same(rt, b"held", b"unbroken");
}

// A Z8536 whose pointer was set just before the night, and a counter at work.
fn of_z8536(rt: &HostRuntime) {
    night(rt, b"-z8536", b"pointed", b"z8536/evening");
    show(rt, b"pointed");
    night(rt, b"pointed", b"pointed", b"z8536/morning");
    night(rt, b"-z8536", b"straight", b"z8536/whole");
    print_same(rt, b"pointed", b"straight");
}

// A CTC, its prescaler in the middle of a count, a counter, a timer that waits for an edge, an interrupt under service and one that waits.
// And one refused in each way.
fn of_ctc(rt: &HostRuntime) {
    night(rt, b"-ctc", b"timed", b"ctc/evening");
    show(rt, b"timed");
    night(rt, b"timed", b"timed", b"ctc/morning");
    night(rt, b"-ctc", b"untimed", b"ctc/whole");
    print_same(rt, b"timed", b"untimed");
    show(rt, b"ctc/short");
    show(rt, b"ctc/contents");
    show(rt, b"ctc/long");
    show(rt, b"ctc/unsound");
}

// A night in T 3000000000: of counters that all go alone, and of two that a link and a pattern tie.
fn in_long_runs(rt: &HostRuntime) {
    night(rt, b"-", b"alone", b"plain/evening");
    night(rt, b"alone", b"alone", b"plain/morning");
    night(rt, b"-", b"alone_uncut", b"plain/whole");
    print_same(rt, b"alone", b"alone_uncut");
    night(rt, b"-", b"tied_up", b"tied/evening");
    night(rt, b"tied_up", b"tied_up", b"tied/morning");
    night(rt, b"-", b"tied_uncut", b"tied/whole");
    print_same(rt, b"tied_up", b"tied_uncut");
}

fn main(rt: HostRuntime) {
    shown(&rt);
    image_files::night_arguments(&rt, &mut rt.stdin(), &mut rt.stdout(), &mut rt.stdout());
    refusals(&rt);
    in_parts(&rt);
    between_long_runs(&rt);
    of_old(&rt);
    with_handshake(&rt);
    of_z8536(&rt);
    of_ctc(&rt);
    in_long_runs(&rt);
}
