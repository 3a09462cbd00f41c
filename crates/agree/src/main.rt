// Says whether the answers of a board, the file that its second argument names, are the model's to the trace that its first argument
// names, from the fresh Z8036 or from the image file that its third argument names.
#![tactic(auto)]

fn main(rt: HostRuntime) {
    agreement::agree_arguments(&rt, &mut rt.stdout(), &mut rt.stderr());
}
