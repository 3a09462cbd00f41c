// Reports of a run: a step's added, and one on top of another.
ghost use Rattle.std.specs.Prelude.{◌≡◌};
ghost use Rattle.rules.specs.Report.{sums, nums};
ghost use Rattle.rules.specs.Step.{reported as reported_of};
ghost use Rattle.theorems.specs.Ticks.{on_top};
ghost use Rattle.clocks.specs.Room.{Room, BothIn, Both};

use rules::{Ran, Report, Stepped};

#[tactic(auto, unfolding(rules::specs::Report::sums))]
fn both(n: [u32; 3], m: [u32; 3]) -> [u32; 3]
    requires { BothIn n m }
    ensures { result ≡ sums n m }
{
    [n[0] + m[0], n[1] + m[1], n[2] + m[2]]
}

// A run with the report of earlier clocks added.
#[tactic(auto, unfolding(rules::specs::Report::reports_added))]
pub(crate) fn on_top(r: Report, s: Ran) -> Ran
    requires { Both r s.report }
    ensures { result ≡ on_top r s }
{
    Ran {
        device: s.device,
        report: Report {
            terminals: both(r.terminals, s.report.terminals),
            lost: both(r.lost, s.report.lost),
        },
    }
}

// 1 for each that is true.
#[tactic(auto, unfolding(rules::specs::Report::nums))]
fn nums(t: [bool; 3]) -> [u32; 3]
    ensures { result ≡ nums t }
{
    t.map(u32::from)
}

// The report so far, with that of a step.
#[tactic(auto, unfolding(rules::specs::Step::reported, theorems::specs::Ticks::on_top))]
pub(crate) fn reported(r: Report, s: Stepped) -> Ran
    requires { Room 1 r }
    ensures { result ≡ reported_of r s }
{
    let ran = Ran {
        device: s.device,
        report: Report {
            terminals: nums(s.terminals),
            lost: nums(s.lost),
        },
    };
    on_top(r, ran)
}
