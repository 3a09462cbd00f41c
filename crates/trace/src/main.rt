// Answers each line of standard input on standard output, from the fresh Z8036.
#![tactic(auto)]

use chip::Chip;
use rules::Device;

// Stays: two programs, each of its own device; what they do is one call.
fn main(rt: HostRuntime) {
    let d = Chip::from(Device::fresh());
    let _ = console::run(d, &mut rt.stdin(), &mut rt.stdout());
}
