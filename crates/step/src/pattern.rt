// The pattern of one port, by masks over the whole byte.
ghost use Rattle.std.specs.Prelude.{◌≡◌};
ghost use Rattle.rules.specs.Patterns.{and_match, or_match};

use rules::Pattern;

// Stays: what a pattern saw before and after, as the definitions take them; a struct of two bytes would be made here and there and taken apart again.
#[tactic(auto, unfolding(rules::specs::Patterns::and_match))]
pub(crate) fn and_match(p: Pattern, before: u8, after: u8) -> bool
    ensures { result ≡ and_match p before after }
{
    let o = ports::on(p);
    let h = ports::hits(p, before, after);
    (o != 0) & (o & (h ^ 255) == 0)
}

// Stays: what a pattern saw before and after, as the definitions take them; a struct of two bytes would be made here and there and taken apart again.
#[tactic(auto, unfolding(rules::specs::Patterns::or_match), using(basics::proofs::Laws::nonzero))]
pub(crate) fn or_match(p: Pattern, before: u8, after: u8) -> bool
    ensures { result ≡ or_match p before after }
{
    ports::hits(p, before, after) != 0
}
