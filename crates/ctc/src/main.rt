// Answers each line of standard input on standard output, from the fresh CTC.
#![tactic(auto)]

use ctc_rules::Ctc;

fn main(rt: HostRuntime) {
    let _ = ctc_console::run(Ctc::fresh(), &mut rt.stdin(), &mut rt.stdout());
}
