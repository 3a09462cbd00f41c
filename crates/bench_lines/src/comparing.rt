// An answer beside a line of BOARD.
ghost use Rattle.std.specs.Prelude.{◌≡◌, ◌==◌, Some, None, if◌then◌else◌};
ghost use Rattle.bench_lines.specs.Fields.{illegible};
ghost use Rattle.bench_lines.specs.Cursor.{number_said};
ghost use Rattle.bench_lines.specs.Compared.{answer_numbers, differs_by, compared_of, compared_kept};

use crate::fields::{Says, first_field, next_field};
use crate::{Compared, FIELDS};
use rules::Answer;
use texts::Text;

// The fields of an answer as numbers.
fn numbers(a: Answer) -> [u32; FIELDS]
    ensures { result ≡ answer_numbers a }
{
    let t = a.report.terminals;
    let l = a.report.lost;
    [
        a.code.into(),
        a.value.into(),
        a.a.into(),
        a.b.into(),
        (a.c % 16).into(),
        a.int.into(),
        a.ieo.into(),
        t[0],
        t[1],
        t[2],
        l[0],
        l[1],
        l[2],
    ]
}

// Whether a field differs from an answer's number, if it can be read.
fn differs_from(n: u32, says: Says) -> Option<bool>
    ensures { result ≡ (if number_said says == illegible then None else Some (differs_by n (number_said says))) }
{
    match says {
        Says::Number(m) => Some(m != n),
        Says::Unmeasured => Some(false),
        Says::Unreadable => None,
    }
}

// An answer beside a line, field by field; none where the line is not readable.
pub fn compare(a: Answer, line: &[u8]) -> Option<Compared>
    ensures { result ≡ compared_of a line.now }
{
    let n = numbers(a);
    let mut differs = [false; FIELDS];
    let mut agrees = true;
    let mut at = first_field(line);
    for i in 0..FIELDS {
        let field = next_field(line, at, i);
        let d = differs_from(n[i], field.says)?;
        differs[i] = d;
        agrees &= !d;
        at = field.next;
    }
    if at.is_some() {
        return None;
    }
    Some(Compared { agrees, differs })
}

// An answer beside a line that is kept; one that found no room is longer than any answer.
#[tactic(auto, unfolding(crate::specs::Compared::compared_kept))]
pub fn compare_kept(a: Answer, t: Text) -> Option<Compared>
    ensures { result ≡ compared_kept a t }
{
    // Stays: None where the line had no room; a method for it would be a public call more, whose clause is as long.
    compare(a, t.bytes.get(..t.len)?)
}
