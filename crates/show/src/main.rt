// Prints the device of the image file that its argument names, in words.
#![tactic(auto)]

fn main(rt: HostRuntime) {
    image_files::show_argument(&rt, &mut rt.stdout(), &mut rt.stderr());
}
