// The fields of an answer by name.
ghost use Rattle.std.specs.Prelude.{◌≡◌};
ghost use Rattle.texts.specs.Kept.{no_text, typed};
ghost use Rattle.bench_lines.specs.Names.{name_of};

use texts::Text;

// The name of the field at a place.
// Stays: a field goes by its place, as the definition does (bench_lines/Names.name_of).
#[tactic(auto, unfolding(crate::specs::Names::name_of, texts::specs::Spelled::spelled))]
pub fn field_name(place: usize) -> Text
    ensures { result ≡ typed no_text (name_of place) }
{
    let t = Text::new();
    match place {
        0 => t.word(b"code"),
        1 => t.word(b"value"),
        2 => t.word(b"pins A"),
        3 => t.word(b"pins B"),
        4 => t.word(b"pins C"),
        5 => t.word(b"INT"),
        6 => t.word(b"IEO"),
        7 => t.word(b"terminal counts of CT1"),
        8 => t.word(b"terminal counts of CT2"),
        9 => t.word(b"terminal counts of CT3"),
        10 => t.word(b"lost terminal counts of CT1"),
        11 => t.word(b"lost terminal counts of CT2"),
        _ => t.word(b"lost terminal counts of CT3"),
    }
}
