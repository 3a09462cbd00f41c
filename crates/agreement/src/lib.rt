// The bench: the answers of a board beside the model's, line by line.
#![tactic(auto)]

mod parting;

use bench_lines::Compared;
use chip::Chip;
use image_files::{Held, Reported};
use parting::Parting;
use rules::Answer;
use std::env::FillError;
use std::io::{Read, Write};
use std::rt::{Env, Files};
use streams::BUFFER;

// A device after an event, the model's answer to it, and that answer beside the board's.
#[derive(Clone, Copy)]
pub struct Turn {
    pub device: Chip,
    pub model: Answer,
    pub compared: Option<Compared>,
}

// That an input which has no more is at its end; where it cannot be read, a line says so.
fn at_end<R: Read, E: Write>(input: &mut R, path: &[u8], report: &mut E) -> Result<(), Reported> {
    match input.read(&mut [0]) {
        Ok(_) => Ok(()),
        Err(error) => {
            image_files::trouble(report, path, false, &error);
            Err(Reported)
        }
    }
}

// What is said of a line of BOARD.
fn say_line<E: Write>(report: &mut E, board: &[u8], line: u64, what: &[u8]) {
    let _ = report.write_all(board);
    let _ = report.write_all(b": line ");
    let _ = write!(report, "{line}");
    let _ = report.write_all(what);
}

// From a device on: the trace of one input, and the board's answers of another. What has ended has to be read to its end.
// Stays: trace and board go to the call that opens them and then to the line that names them; a struct of the two would be taken apart in each.
fn agree_from<R: Read, S: Read, W: Write, E: Write>(
    d: Chip,
    events: &mut R,
    trace: &[u8],
    answers: &mut S,
    board: &[u8],
    out: &mut W,
    report: &mut E,
) -> Result<(), Reported> {
    match parting::part(d, events, answers, out) {
        Parting::Apart => {}
        Parting::Unreadable(line) => say_line(report, board, line, b" is unreadable\n"),
        Parting::NoAnswer(line) => {
            at_end(answers, board, report)?;
            say_line(report, board, line, b" is missing, and the trace has one\n");
        }
        Parting::NoEvent(line) => {
            at_end(events, trace, report)?;
            say_line(report, board, line, b" is one too many for the trace\n");
        }
        Parting::Ended(agreed) => {
            at_end(events, trace, report)?;
            at_end(answers, board, report)?;
            let _ = write!(out, "{agreed}");
            let _ = out.write_all(b" lines agree\n");
        }
    }
    Ok(())
}

// Opens a file to read; where it cannot be opened, a line says so.
fn opened<F: Files, E: Write>(files: &F, path: &[u8], report: &mut E) -> Result<F::File, Reported> {
    match image_files::open_read(files, path) {
        Ok(file) => Ok(file),
        Err(error) => {
            image_files::trouble(report, path, false, &error);
            Err(Reported)
        }
    }
}

// Stays: trace and board go to the call that opens them and then to the line that names them; a struct of the two would be taken apart in each.
fn agree_files<F: Files, W: Write, E: Write>(
    files: &F,
    trace: &[u8],
    board: &[u8],
    image: &[u8],
    out: &mut W,
    report: &mut E,
) -> Result<(), Reported> {
    let Held::Chip(d) = image_files::load(files, image, report)? else {
        let _ = report.write_all(image);
        let _ = report.write_all(b": the image of a CTC, which answers in another form\n");
        return Err(Reported);
    };
    let mut events = opened(files, trace, report)?;
    let mut answers = opened(files, board, report)?;
    agree_from(d, &mut events, trace, &mut answers, board, out, report)
}

// Whether the answers of the file BOARD are the model's to the file TRACE, from the device of an image file on: how many lines agree,
// or the first that does not, with the device before it.
// Stays: trace and board go to the call that opens them and then to the line that names them; a struct of the two would be taken apart in each.
pub fn agree<F: Files, W: Write, E: Write>(
    files: &F,
    trace: &[u8],
    board: &[u8],
    image: &[u8],
    out: &mut W,
    report: &mut E,
) {
    let _ = agree_files(files, trace, board, image, out, report);
}

// The third argument, where there is one, names the image file; else it is the fresh Z8036.
// Stays: trace and board go to the call that opens them and then to the line that names them; a struct of the two would be taken apart in each.
fn agree_third<S: Files + Env, W: Write, E: Write>(
    system: &S,
    trace: &[u8],
    board: &[u8],
    out: &mut W,
    report: &mut E,
) {
    let mut image = [0; BUFFER];
    match system.arg(3, &mut image) {
        Ok(n) => agree(system, trace, board, &image[..n], out, report),
        Err(FillError::NotPresent) => agree(system, trace, board, b"-", out, report),
        Err(FillError::TooLong) => say_arguments(report),
    }
}

fn say_arguments<E: Write>(report: &mut E) {
    let _ = report.write_all(
        b"agree: the arguments are TRACE and BOARD, and after them may stand an image file\n",
    );
}

// Whether there are more arguments than the program takes.
fn has_fourth<S: Env>(system: &S) -> bool {
    !matches!(system.arg(4, &mut []), Err(FillError::NotPresent))
}

// As the program `agree` does, by its arguments.
pub fn agree_arguments<S: Files + Env, W: Write, E: Write>(
    system: &S,
    out: &mut W,
    report: &mut E,
) {
    let mut trace = [0; BUFFER];
    let mut board = [0; BUFFER];
    match (system.arg(1, &mut trace), system.arg(2, &mut board)) {
        (Ok(n), Ok(m)) if !has_fourth(system) => {
            agree_third(system, &trace[..n], &board[..m], out, report);
        }
        _ => say_arguments(report),
    }
}
