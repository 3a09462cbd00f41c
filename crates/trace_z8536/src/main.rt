// Answers each line of standard input on standard output, from the fresh Z8536.
#![tactic(auto)]

use chip::Chip;
use z8536::Z8536;

// Stays: two programs, each of its own device; what they do is one call.
fn main(rt: HostRuntime) {
    let d = Chip::from(Z8536::fresh());
    let _ = console::run(d, &mut rt.stdin(), &mut rt.stdout());
}
