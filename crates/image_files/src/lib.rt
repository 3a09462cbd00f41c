// The night: a device restored from an image file, a trace run on it, and the device saved again.
#![tactic(auto)]

mod files;
mod held;
mod name;

pub use files::{Reported, keep, load, open_read, trouble};
pub use held::{Held, show_device};
use std::io::{Read, Write};
use std::rt::{Env, Files};
use streams::BUFFER;

// Prints the device of an image file in words.
pub fn show<F: Files, W: Write, E: Write>(files: &F, path: &[u8], out: &mut W, report: &mut E) {
    if let Ok(d) = load(files, path, report) {
        d.show(out);
    }
}

// Restores the device of one image file, runs the trace of an input on it, and saves the device to another image
// file, which may be the same.
// Stays: a name to read from and one to write to, as the program has them (IN, OUT); a rename has two names as well.
pub fn night<F: Files, R: Read, W: Write, E: Write>(
    files: &F,
    from: &[u8],
    to: &[u8],
    input: &mut R,
    answers: &mut W,
    report: &mut E,
) -> Result<(), Reported> {
    let d = load(files, from, report)?;
    files::can_keep(files, to, report)?;
    let Ok(e) = d.run(input, answers) else {
        let _ = report.write_all(b"the answers cannot be written\n");
        return Err(Reported);
    };
    keep(files, to, e, report)
}

// As the program `show` does, by its argument.
pub fn show_argument<S: Files + Env, W: Write, E: Write>(system: &S, out: &mut W, report: &mut E) {
    let mut path = [0; BUFFER];
    match system.arg(1, &mut path) {
        Ok(n) => show(system, &path[..n], out, report),
        Err(_) => {
            let _ = report.write_all(b"show: the argument is IN, an image file\n");
        }
    }
}

// As the program `night` does, by its arguments.
pub fn night_arguments<S: Files + Env, R: Read, W: Write, E: Write>(
    system: &S,
    input: &mut R,
    answers: &mut W,
    report: &mut E,
) {
    let mut from = [0; BUFFER];
    let mut to = [0; BUFFER];
    match (system.arg(1, &mut from), system.arg(2, &mut to)) {
        (Ok(n), Ok(m)) => {
            let _ = night(system, &from[..n], &to[..m], input, answers, report);
        }
        _ => {
            let _ = report.write_all(b"night: the arguments are IN and OUT, image files\n");
        }
    }
}

// A night whose trace is a file.
// Stays: a name to read from and one to write to, as the program has them (IN, OUT); a rename has two names as well.
pub fn night_of<F: Files, W: Write, E: Write>(
    files: &F,
    from: &[u8],
    to: &[u8],
    trace: &[u8],
    answers: &mut W,
    report: &mut E,
) -> Result<(), Reported> {
    let mut input = files::told(open_read(files, trace), false, trace, report)?;
    night(files, from, to, &mut input, answers, report)
}
