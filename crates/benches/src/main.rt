// Boards beside the model, one after the other: boards that agree, with holes and without; a difference in each field; from an image of
// each version and of a Z8536; and each refusal.
#![tactic(auto)]

fn agree(rt: &HostRuntime, trace: &[u8], board: &[u8], image: &[u8]) {
    agreement::agree(rt, trace, board, image, &mut rt.stdout(), &mut rt.stdout());
}

// From the fresh device.
fn fresh(rt: &HostRuntime, trace: &[u8], board: &[u8]) {
    agree(rt, trace, board, b"-");
}

// The trace's own answers; a hole in each field, and fields missing at the end, down to none; no line; lines with no field.
fn alike(rt: &HostRuntime) {
    fresh(rt, b"trace", b"board");
    fresh(rt, b"trace", b"holes");
    fresh(rt, b"empty", b"empty");
    fresh(rt, b"three", b"blank");
}

fn differs(rt: &HostRuntime, board: &[u8]) {
    fresh(rt, b"trace", board);
}

// In each field, in several, and where the event is too long a line.
fn parted(rt: &HostRuntime) {
    differs(rt, b"differs/code");
    differs(rt, b"differs/value");
    differs(rt, b"differs/pins_a");
    differs(rt, b"differs/pins_b");
    differs(rt, b"differs/pins_c");
    differs(rt, b"differs/int");
    differs(rt, b"differs/ieo");
    differs(rt, b"differs/terminals_1");
    differs(rt, b"differs/terminals_2");
    differs(rt, b"differs/terminals_3");
    differs(rt, b"differs/lost_1");
    differs(rt, b"differs/lost_2");
    differs(rt, b"differs/lost_3");
    differs(rt, b"differs/several");
    fresh(rt, b"long_trace", b"differs/long_event");
}

// From images, and from one that is another device's.
fn from_images(rt: &HostRuntime) {
    agree(
        rt,
        b"from/version1_trace",
        b"from/version1_board",
        b"from/version1",
    );
    agree(
        rt,
        b"from/version2_trace",
        b"from/version2_board",
        b"from/version2",
    );
    agree(rt, b"from/z8536_trace", b"from/z8536_board", b"from/z8536");
    agree(rt, b"from/z8536_trace", b"from/z8536_other", b"from/z8536");
    agree(
        rt,
        b"from/version2_trace",
        b"from/version2_board",
        b"-z8536",
    );
}

fn unreadable(rt: &HostRuntime, board: &[u8]) {
    fresh(rt, b"one", board);
}

// Lines of BOARD that are no answers.
fn unreadables(rt: &HostRuntime) {
    unreadable(rt, b"unreadable/trailing_space");
    unreadable(rt, b"unreadable/leading_space");
    unreadable(rt, b"unreadable/two_spaces");
    unreadable(rt, b"unreadable/leading_zero");
    unreadable(rt, b"unreadable/code_256");
    unreadable(rt, b"unreadable/small_letter");
    unreadable(rt, b"unreadable/one_digit");
    unreadable(rt, b"unreadable/three_digits");
    unreadable(rt, b"unreadable/two_digits_of_c");
    unreadable(rt, b"unreadable/flag_2");
    unreadable(rt, b"unreadable/count_past");
    unreadable(rt, b"unreadable/fourteen");
    unreadable(rt, b"unreadable/two_hyphens");
    unreadable(rt, b"unreadable/carriage_return");
    unreadable(rt, b"unreadable/long");
    fresh(rt, b"three", b"unreadable/third");
}

// A board too short and too long; files that are not there, or are folders; images that are refused.
fn refusals(rt: &HostRuntime) {
    fresh(rt, b"three", b"two_lines");
    fresh(rt, b"three", b"empty");
    fresh(rt, b"three", b"four_lines");
    fresh(rt, b"three", b"four_unended");
    fresh(rt, b"missing", b"board");
    fresh(rt, b"trace", b"missing");
    fresh(rt, b"from", b"from");
    fresh(rt, b"empty", b"from");
    agree(rt, b"trace", b"board", b"missing");
    agree(rt, b"trace", b"board", b"from");
    agree(rt, b"trace", b"board", b"empty");
    agree(rt, b"trace", b"board", b"from/short");
    agree(rt, b"trace", b"board", b"from/contents");
    agree(rt, b"trace", b"board", b"from/unsound");
    agree(rt, b"trace", b"board", b"from/ctc");
}

fn main(rt: HostRuntime) {
    alike(&rt);
    parted(&rt);
    from_images(&rt);
    unreadables(&rt);
    refusals(&rt);
}
