// What a host in C, Rust or another language links: the calls of `host` under their own names, by the C calling convention, with the same
// promises. hosts/wolfscarer.h declares them. A slice is a pointer and then a length.
// Stays: each is its twin in `host` once more, since C links a name of its own by the C calling convention, and Rust calls those of `host`.
#![tactic(auto)]

ghost use Rattle.std.specs.Prelude.{◌≡◌};
ghost use Rattle.theorems.specs.Used.{of};
ghost use Rattle.bodies.specs.Written.{image_of};
ghost use Rattle.image.specs.Pointed.{image_z8536};
ghost use Rattle.ctc_image.specs.Layout.{image_ctc};
ghost use Rattle.rules.specs.Record.{fresh_of};
ghost use Rattle.z8536.specs.Z8536.{fresh_z8536};
ghost use Rattle.ctc_rules.specs.Record.{fresh_ctc};
ghost use Rattle.host.specs.Calls.{called, host_event, host_event_z8536, host_event_ctc, host_end_ctc};
ghost use Rattle.host.specs.Calls.{host_lines, host_lines_z8536, host_lines_ctc, fresh_code, fresh_state, length_at};

// A length by its number.
#[unsafe(no_mangle)]
pub extern "C" fn wolfscarer_length(what: u32) -> usize
    ensures { result ≡ length_at what }
{
    host::wolfscarer_length(what)
}

// The fresh Z8036's image, of version 2, into a buffer of exactly its length. Codes: 7 for another length, with nothing written, else 0.
#[unsafe(no_mangle)]
pub extern "C" fn wolfscarer_z8036_fresh(state: &mut [u8]) -> u8
    ensures { (result ≡ fresh_code (image_of fresh_of) state.old) × (state.new ≡ fresh_state (image_of fresh_of) state.old) }
{
    host::wolfscarer_z8036_fresh(state)
}

// An event of a Z8036, in place. Codes: the state's 7, 8, 7, 9, then 7 for an answer buffer that is too short, with neither buffer
// written; else the event's.
#[unsafe(no_mangle)]
pub extern "C" fn wolfscarer_z8036_event(
    state: &mut [u8],
    kind: u32,
    a: u32,
    b: u32,
    c: u32,
    answer: &mut [u8],
) -> u8
    ensures { called result state.new answer.new ≡ host_event state.old (of kind a b c) answer.old }
{
    host::wolfscarer_z8036_event(state, kind, a, b, c, answer)
}

// INT, IEO and the highest requester's place of a Z8036, with no event. Codes as an event's, else 0.
#[unsafe(no_mangle)]
pub extern "C" fn wolfscarer_z8036_lines(state: &[u8], answer: &mut [u8]) -> u8
    ensures { called result state.now answer.new ≡ host_lines state.now answer.old }
{
    host::wolfscarer_z8036_lines(state, answer)
}

// The image of the fresh Z8536, likewise.
#[unsafe(no_mangle)]
pub extern "C" fn wolfscarer_z8536_fresh(state: &mut [u8]) -> u8
    ensures { (result ≡ fresh_code (image_z8536 fresh_z8536) state.old) × (state.new ≡ fresh_state (image_z8536 fresh_z8536) state.old) }
{
    host::wolfscarer_z8536_fresh(state)
}

// An event of a Z8536.
#[unsafe(no_mangle)]
pub extern "C" fn wolfscarer_z8536_event(
    state: &mut [u8],
    kind: u32,
    a: u32,
    b: u32,
    c: u32,
    answer: &mut [u8],
) -> u8
    ensures { called result state.new answer.new ≡ host_event_z8536 state.old (of kind a b c) answer.old }
{
    host::wolfscarer_z8536_event(state, kind, a, b, c, answer)
}

// The lines of a Z8536.
#[unsafe(no_mangle)]
pub extern "C" fn wolfscarer_z8536_lines(state: &[u8], answer: &mut [u8]) -> u8
    ensures { called result state.now answer.new ≡ host_lines_z8536 state.now answer.old }
{
    host::wolfscarer_z8536_lines(state, answer)
}

// The image of the fresh CTC, likewise.
#[unsafe(no_mangle)]
pub extern "C" fn wolfscarer_ctc_fresh(state: &mut [u8]) -> u8
    ensures { (result ≡ fresh_code (image_ctc fresh_ctc) state.old) × (state.new ≡ fresh_state (image_ctc fresh_ctc) state.old) }
{
    host::wolfscarer_ctc_fresh(state)
}

// An event of a CTC.
#[unsafe(no_mangle)]
pub extern "C" fn wolfscarer_ctc_event(
    state: &mut [u8],
    kind: u32,
    a: u32,
    b: u32,
    c: u32,
    answer: &mut [u8],
) -> u8
    ensures { called result state.new answer.new ≡ host_event_ctc state.old (of kind a b c) answer.old }
{
    host::wolfscarer_ctc_event(state, kind, a, b, c, answer)
}

// The end of service of a CTC. Codes as an event's, else 0.
#[unsafe(no_mangle)]
pub extern "C" fn wolfscarer_ctc_end_of_service(state: &mut [u8], answer: &mut [u8]) -> u8
    ensures { called result state.new answer.new ≡ host_end_ctc state.old answer.old }
{
    host::wolfscarer_ctc_end_of_service(state, answer)
}

// The lines of a CTC, worked out.
#[unsafe(no_mangle)]
pub extern "C" fn wolfscarer_ctc_lines(state: &[u8], answer: &mut [u8]) -> u8
    ensures { called result state.now answer.new ≡ host_lines_ctc state.now answer.old }
{
    host::wolfscarer_ctc_lines(state, answer)
}
