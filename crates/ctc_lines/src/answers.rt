// The line of an answer.
ghost use Rattle.std.specs.Prelude.{◌≡◌};
ghost use Rattle.texts.specs.Kept.{no_text, typed};
ghost use Rattle.ctc_lines.specs.Answers.{ctc_text};

use ctc_rules::CtcAnswer;
use texts::Text;

// The line of an answer, with its line feed.
#[tactic(auto, unfolding(texts::specs::Kept::typed, crate::specs::Answers::ctc_text, crate::specs::Answers::zeros_text), using(texts::proofs::Typing::typed_append))]
pub fn answer_text(a: CtcAnswer) -> Text
    ensures { result ≡ typed no_text (ctc_text a) }
{
    Text::new()
        .decimal(a.code.into())
        .hex(a.value)
        .nibble(a.levels)
        .flag(a.int)
        .flag(a.ieo)
        .count(a.zeros[0])
        .count(a.zeros[1])
        .count(a.zeros[2])
        .count(a.zeros[3])
        .push(b'\n')
}
