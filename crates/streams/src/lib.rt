// Bytes of a reader: how many came. Where the system fails, nothing comes.
#![tactic(auto)]

ghost use Rattle.std.specs.Prelude.{take};
ghost use Rattle.std.specs.Io.KnownBytes.{Consumes};
ghost use Rattle.streams.specs.Counts.{IsPrefixLen};

use std::io::Read;

// A buffer that holds any name of a file.
pub const BUFFER: usize = 4_096;

// A buffer for a loop that moves many bytes.
pub const LARGE_BUFFER: usize = 65_536;

// Reads once, and answers how many bytes came; none at the end of the input, nor where it cannot be read.
pub fn read<R: Read>(input: &mut R, buf: &mut [u8]) -> usize
    ensures in_hand { IsPrefixLen result buf.new }
    ensures bytes { Consumes (R.remaining input.old) (R.remaining input.new) (take result buf.new) }
{
    input.read(buf).unwrap_or(0)
}

// Reads until the buffer is full, the input ends or it cannot be read, and answers how many bytes stand in front of the buffer.
pub fn read_full<R: Read>(input: &mut R, buf: &mut [u8]) -> usize
    ensures { IsPrefixLen result buf.new }
{
    let mut done = 0;
    // Stays: a turn goes on by as many bytes as were read.
    while done < buf.len() {
        let n = read(input, &mut buf[done..]);
        if n == 0 {
            break;
        }
        done += n;
    }
    done
}
