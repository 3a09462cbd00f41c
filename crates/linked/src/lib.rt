// CT1, CT2 and Port B's side over k timer clocks, where a link or a pattern ties them: clock by clock, but for the stretches in which clocks
// only take one from the counts, which are one leap; and in a longer run, when all three come back to what they were, all whole rounds at once.
#![tactic(auto)]

mod chase;
mod stage;

ghost use Rattle.std.specs.Prelude.{◌≡◌};
ghost use Rattle.basics.specs.Iterate.{iterate};
ghost use Rattle.theorems.specs.Moving.{pair_of, paired_by};

use rules::Device;
use stage::Stage;
use theorems::Pair;

// k timer clocks from a record.
#[tactic(auto, unfolding(theorems::specs::Moving::pair_of))]
pub fn linked(k: u32, d: Device) -> Pair
    ensures { result ≡ iterate k (paired_by d) (pair_of d) }
{
    chase::run(Stage::of(d), stage::pair(d), k)
}
