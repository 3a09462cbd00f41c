// Restores the image file that its first argument names, runs the trace of standard input, and saves the device to the
// image file that its second argument names.
#![tactic(auto)]

fn main(rt: HostRuntime) {
    image_files::night_arguments(&rt, &mut rt.stdin(), &mut rt.stdout(), &mut rt.stderr());
}
