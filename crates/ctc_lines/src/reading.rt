// What a line says.
ghost use Rattle.std.specs.Prelude.{◌≡◌};
ghost use Rattle.texts.specs.Kept.{bytes_of};
ghost use Rattle.ctc_lines.specs.Lines.{ends_service, outcome_kept};

use ctc_rules::{Ctc, CtcAnswer};
use rules::Outcome;
use texts::Text;

// Whether a line that is kept is the letter I alone; one that found no room is not.
#[tactic(auto, unfolding(texts::specs::Kept::bytes_of, texts::specs::Kept::kept_len, crate::specs::Lines::ends_service))]
fn ends_service(t: Text) -> bool
    ensures { result ≡ ends_service (bytes_of t) }
{
    // Stays: None where the line had no room; a method for it would be a public call more, whose clause is as long.
    matches!(t.bytes.get(..t.len), Some([b'I']))
}

// Says a line that is kept to the device.
#[tactic(auto, unfolding(crate::specs::Lines::outcome_kept, crate::specs::Lines::outcome_line, lines::specs::Lines::says_of))]
pub fn outcome(d: Ctc, t: Text) -> Outcome<Ctc, CtcAnswer>
    ensures { result ≡ outcome_kept d t }
{
    if ends_service(t) {
        return ctc_event::end_of_service(d);
    }
    ctc_event::event(d, lines::event_of_line(t))
}
