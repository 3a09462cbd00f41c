// A CTC's trace on streams, line by line.
#![tactic(auto)]

ghost use Rattle.std.specs.Prelude.{◌≡◌, IfOk};
ghost use Rattle.ctc_lines.specs.Lines.{outcome_kept};

use ctc_rules::Ctc;
use std::io;
use std::io::{Read, Write};
use streams::LARGE_BUFFER;
use texts::Text;

// Says a line to the device, and writes the answer: the device after it.
fn answer<W: Write>(d: Ctc, t: Text, answers: &mut W) -> io::Result<Ctc>
    ensures { IfOk result (λ e. e ≡ (outcome_kept d t).device) }
{
    let o = ctc_lines::outcome(d, t);
    console::print(answers, ctc_lines::answer_text(o.answer))?;
    Ok(o.device)
}

// Answers the lines of an input as they arrive, from a device on, as long as the answers can be written: the device after them. (A
// proved loop has to end, and nothing says that the input does: its turns are counted, up to a number that no run reaches.)
pub fn run<R: Read, W: Write>(d: Ctc, trace: &mut R, answers: &mut W) -> io::Result<Ctc> {
    let mut buf = [0; LARGE_BUFFER];
    let mut r = input::start();
    let mut device = d;
    for _ in 0..u64::MAX {
        let n = input::next_line(r, trace, &mut buf);
        let Some(line) = n.line else {
            return Ok(device);
        };
        device = answer(device, line, answers)?;
        r = n.reader;
    }
    Ok(device)
}
