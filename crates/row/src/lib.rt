// The event call on a row of devices that the host lends, the first nearest the processor (W-212).
#![tactic(auto)]

ghost use Rattle.std.specs.Prelude.{◌≡◌};
ghost use Rattle.rows.specs.Rows.{row_answer, row_after};
ghost use Rattle.row.specs.Passes.{look_along, pass_along, row_along};

use row_visit::Pass;
use rows::{RowAnswer, RowEvent};
use rules::Device;

// The pass that looks, from the first device to the last.
fn look(row: &[Device], s: Pass) -> Pass
    ensures { result ≡ look_along row.now s }
{
    row.iter().fold(s, |t, d| row_visit::looked(*d, t))
}

// The pass that acts, at each device in turn.
fn act(row: &mut [Device], s: Pass) -> Pass
    ensures { (result ≡ pass_along row.old s) × (row.new ≡ row_along row.old s) }
{
    let mut t = s;
    for d in row.iter_mut() {
        let v = row_visit::acted(*d, t);
        *d = v.device;
        t = v.pass;
    }
    t
}

// Any row and any event: a pass that looks, and a pass that acts.
pub fn event(row: &mut [Device], e: RowEvent) -> RowAnswer
    ensures { (result ≡ row_answer row.old e) × (row.new ≡ row_after row.old e) }
{
    let looked = look(row, row_visit::looking(e));
    act(row, row_visit::acting(looked)).answer
}
