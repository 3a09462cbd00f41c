// The name of a new file beside another: that name, a point, and six letters.
ghost use Rattle.std.specs.Prelude.{◌≤◌};

use std::io;
use std::io::ErrorKind;
use streams::BUFFER;

// Stays: a buffer with its length, since no heap is used; the invariant ties the two. It is lent and not handed on: by value a night took more
// stack.
#[derive(Drop)]
pub(crate) struct Name {
    bytes: [u8; BUFFER],
    len: usize,
    ghost in_bytes: { len ≤ 4096 },
}

// The six letters that tell the names apart.
fn letters(turn: u32) -> [u8; 6] {
    let mut rest = turn;
    let mut word = [0; 6];
    for letter in &mut word {
        *letter = b'a' + (rest % 26) as u8;
        rest /= 26;
    }
    word
}

impl Name {
    // No name yet.
    pub(crate) fn new() -> Name {
        Name {
            bytes: [0; BUFFER],
            len: 0,
        }
    }

    // One of the names beside another, unless it is too long.
    pub(crate) fn beside(path: &[u8], turn: u32) -> io::Result<Name> {
        let n = path.len();
        if BUFFER - 7 < n {
            return Err(io::Error::from(ErrorKind::InvalidFilename));
        }
        let mut bytes = [0; BUFFER];
        bytes[..n].copy_from_slice(path);
        bytes[n] = b'.';
        bytes[n + 1..n + 7].copy_from_slice(&letters(turn));
        Ok(Name { bytes, len: n + 7 })
    }

    pub(crate) fn as_slice(&self) -> &[u8] {
        &self.bytes[..self.len]
    }
}
