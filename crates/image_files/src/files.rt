// Image files. A file is replaced whole or not at all: the image goes to a new file beside it, is written out to the
// disk, and then takes its name; then the folder is written out too.
ghost use Rattle.std.specs.Prelude.{true, false, ◌≡◌, IsErr};
ghost use Rattle.image_files.specs.Files.{is_dash, is_dash_z8536, is_dash_ctc, fresh_loaded, fresh_loaded_z8536, fresh_loaded_ctc, fresh_named, sound_held};

use crate::held::{Held, LONGEST};
use crate::name::Name;
use chip::Chip;
use console::print;
use ctc_rules::Ctc;
use image::Restored;
use phrases::Trouble;
use rules::Device;
use std::fs::{File, OpenFile, OpenOptions};
use std::io::{ErrorKind, Read, Write};
use std::os::unix::fs::OpenOptionsExt;
use std::rt::Files;
use std::{fs, io};
use texts::Text;
use z8536::Z8536;

// It did not go well, and a line has said why.
#[derive(Clone, Copy)]
pub struct Reported;

// A line that begins with the file's name.
fn say<W: Write>(report: &mut W, path: &[u8], t: Text) {
    let _ = report.write_all(path);
    let _ = print(report, t);
}

// The system's numbers of the errors that have words of their own.
const NO_ENTRY: i32 = 2;

const NO_ACCESS: i32 = 13;

const NOT_A_FOLDER: i32 = 20;

const IS_A_FOLDER: i32 = 21;

const NO_SPACE: i32 = 28;

fn why(error: &io::Error) -> Trouble {
    match error.raw_os_error() {
        Some(NO_ENTRY) => Trouble::NoEntry,
        Some(NO_ACCESS) => Trouble::NotPermitted,
        Some(IS_A_FOLDER) => Trouble::Folder,
        Some(NOT_A_FOLDER) => Trouble::NotInFolder,
        Some(NO_SPACE) => Trouble::NoSpace,
        _ => Trouble::Other,
    }
}

// A line that says what a call on a file failed at.
// Stays: a bool that says which of two words stands in the line.
pub fn trouble<W: Write>(report: &mut W, path: &[u8], writing: bool, error: &io::Error) {
    say(report, path, phrases::trouble_line(writing, why(error)));
}

// What a call on a file answers; where it failed, a line says so.
// Stays: a bool that says which of two words stands in the line.
pub(crate) fn told<T: Drop, W: Write>(
    done: io::Result<T>,
    writing: bool,
    path: &[u8],
    report: &mut W,
) -> Result<T, Reported> {
    match done {
        Ok(value) => Ok(value),
        Err(error) => {
            trouble(report, path, writing, &error);
            Err(Reported)
        }
    }
}

// The name of a file, which is text here.
fn name_of(path: &[u8]) -> io::Result<&str> {
    match str::from_utf8(path) {
        Ok(name) => Ok(name),
        Err(_) => Err(io::Error::from(ErrorKind::InvalidInput)),
    }
}

// Opens a file to read.
pub fn open_read<F: Files>(files: &F, path: &[u8]) -> io::Result<F::File> {
    File::open(files, name_of(path)?)
}

// The first byte of a CTC's image.
const CTC_FIRST: u8 = 0x11;

// How long an image is that begins with a byte; one that is unknown counts as of version 1.
fn image_len_by(first: u8) -> u32 {
    match first {
        CTC_FIRST => Ctc::IMAGE as u32,
        2 => Device::IMAGE as u32,
        3 => Z8536::IMAGE as u32,
        _ => Device::OLD_IMAGE as u32,
    }
}

// The device of an image that begins with a byte.
fn restored(first: u8, image: &[u8]) -> Restored<Held> {
    if first == CTC_FIRST {
        let r = ctc_image::restore(image);
        return Restored {
            code: r.code,
            device: Held::Ctc(r.device),
        };
    }
    let r = chip_image::restore(image);
    Restored {
        code: r.code,
        device: Held::Chip(r.device),
    }
}

// The device of an open file. One byte more is read than the longest image has: then a longer file is refused too. Where nothing
// comes of a file, a further read tells whether it is empty.
fn restore_from<R: Read, W: Write>(
    file: &mut R,
    path: &[u8],
    report: &mut W,
) -> Result<Held, Reported> {
    let mut buf = [0; LONGEST + 1];
    let n = streams::read_full(file, &mut buf);
    if n == 0 {
        told(file.read(&mut [0]), false, path, report)?;
    }
    let first = buf[0];
    let r = restored(first, &buf[..n]);
    if r.code != 0 {
        say(
            report,
            path,
            phrases::refusal_line(r.code, image_len_by(first), n),
        );
        return Err(Reported);
    }
    Ok(r.device)
}

// The fresh device that a name stands for, if it does: `-` for the Z8036, `-z8536` for the Z8536, `-ctc` for the CTC.
#[tactic(auto, unfolding(texts::specs::Spelled::spelled), using(crate::proofs::Names::same_is))]
fn fresh(path: &[u8]) -> Option<Held>
    ensures { result ≡ fresh_named path.now }
{
    if path == b"-".as_slice() {
        return Some(Held::Chip(Chip::from(Device::fresh())));
    }
    if path == b"-z8536".as_slice() {
        return Some(Held::Chip(Chip::from(Z8536::fresh())));
    }
    if path == b"-ctc".as_slice() {
        return Some(Held::Ctc(Ctc::fresh()));
    }
    None
}

// The device of an image file, or the fresh one that the name stands for.
#[tactic(auto, using(crate::proofs::Names::z8036_named, crate::proofs::Names::z8536_named, crate::proofs::Names::ctc_named))]
pub fn load<F: Files, W: Write>(files: &F, path: &[u8], report: &mut W) -> Result<Held, Reported>
    ensures value { is_dash path.now ≡ true → result ≡ fresh_loaded }
    ensures value_2 { is_dash_z8536 path.now ≡ true → result ≡ fresh_loaded_z8536 }
    ensures value_3 { is_dash_ctc path.now ≡ true → result ≡ fresh_loaded_ctc }
{
    if let Some(d) = fresh(path) {
        return Ok(d);
    }
    let mut file = told(open_read(files, path), false, path, report)?;
    restore_from(&mut file, path, report)
}

// How many names are tried for a new file, until one is free.
const NAMES: u32 = 238_328;

// Makes a new file, its owner's to read and write and nobody else's.
fn create<F: Files>(files: &F, path: &[u8]) -> io::Result<F::File> {
    OpenOptions::new()
        .read(true)
        .write(true)
        .create_new(true)
        .mode(0o600)
        .open(files, name_of(path)?)
}

// Makes a new file beside another, by the first name that is free, which is put into `name`.
fn create_beside<F: Files>(files: &F, path: &[u8], name: &mut Name) -> io::Result<F::File> {
    for turn in 0..NAMES {
        *name = Name::beside(path, turn)?;
        match create(files, name.as_slice()) {
            Ok(file) => return Ok(file),
            Err(error) => {
                if error.kind() != ErrorKind::AlreadyExists {
                    return Err(error);
                }
            }
        }
    }
    Err(io::Error::from(ErrorKind::AlreadyExists))
}

// Takes a file away that was made beside another. Nothing can be done where the system does not let it go.
fn remove<F: Files>(files: &F, name: &Name) {
    if let Ok(name) = name_of(name.as_slice()) {
        let _ = fs::remove_file(files, name);
    }
}

// Opens a file to read and write, as it stands.
fn open_update<F: Files>(files: &F, path: &[u8]) -> io::Result<F::File> {
    OpenOptions::new()
        .read(true)
        .write(true)
        .open(files, name_of(path)?)
}

// That the name is no folder's, which no file can take.
fn no_folder<F: Files>(files: &F, path: &[u8]) -> io::Result<()> {
    match open_update(files, path) {
        Err(error) if error.kind() == ErrorKind::IsADirectory => Err(error),
        _ => Ok(()),
    }
}

// That a file can be made beside this one, which is no folder; it is taken away again.
fn made_and_gone<F: Files>(files: &F, path: &[u8]) -> io::Result<()> {
    no_folder(files, path)?;
    let mut name = Name::new();
    let file = create_beside(files, path, &mut name)?;
    drop(file);
    remove(files, &name);
    Ok(())
}

pub(crate) fn can_keep<F: Files, W: Write>(
    files: &F,
    path: &[u8],
    report: &mut W,
) -> Result<(), Reported> {
    told(made_and_gone(files, path), true, path, report)
}

// Writes an image out to the disk.
fn write_out<F: Write + OpenFile>(file: &mut F, image: &[u8]) -> io::Result<()> {
    file.write_all(image)?;
    file.sync_all()
}

fn folder_out<F: Files>(files: &F, folder: &[u8]) -> io::Result<()> {
    open_read(files, folder)?.sync_all()
}

// Writes the folder of a file out to the disk, so that the file's new name lasts.
fn name_out<F: Files>(files: &F, path: &[u8]) -> io::Result<()> {
    match path.iter().rposition(|b| *b == b'/') {
        Some(stroke) => folder_out(files, &path[..stroke + 1]),
        None => folder_out(files, b"."),
    }
}

// Gives a file another name.
// Stays: a name to read from and one to write to, as the program has them (IN, OUT); a rename has two names as well.
fn rename<F: Files>(files: &F, from: &[u8], to: &[u8]) -> io::Result<()> {
    fs::rename(files, name_of(from)?, name_of(to)?)
}

// Writes an image into a new file, and gives the file another name; where that fails, a line says so.
fn fill<F: Files, W: Write>(
    files: &F,
    made: F::File,
    name: &[u8],
    path: &[u8],
    image: &[u8],
    report: &mut W,
) -> Result<(), Reported> {
    let mut file = made;
    told(write_out(&mut file, image), true, path, report)?;
    drop(file);
    told(rename(files, name, path), true, path, report)
}

// Puts an image into a new file, and gives that file the name. The line about what failed comes before the new file is taken away.
fn replace<F: Files, W: Write>(
    files: &F,
    path: &[u8],
    image: &[u8],
    report: &mut W,
) -> Result<(), Reported> {
    let mut name = Name::new();
    let made = create_beside(files, path, &mut name);
    let file = told(made, true, path, report)?;
    let filled = fill(files, file, name.as_slice(), path, image, report);
    if filled.is_err() {
        remove(files, &name);
    }
    filled
}

// Saves a device to an image file; where it is not saved, the file is as it was.
pub fn keep<F: Files, W: Write>(
    files: &F,
    path: &[u8],
    d: Held,
    report: &mut W,
) -> Result<(), Reported>
    ensures { sound_held d ≡ false → IsErr result }
{
    let mut image = [0; LONGEST];
    if let Err(refusal) = d.save(&mut image) {
        say(
            report,
            path,
            phrases::refusal_line(refusal.number(), LONGEST as u32, LONGEST),
        );
        return Err(Reported);
    }
    replace(files, path, &image[..d.image_len()], report)?;
    if name_out(files, path).is_err() {
        let _ = report.write_all(path);
        let _ = report.write_all(b": saved, but its folder cannot be written out\n");
    }
    Ok(())
}
