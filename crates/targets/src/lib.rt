// What is kept with an aggregate between intervals: its own target and regulation (02, 2026-07).
#![tactic(auto)]

ghost use Rattle.std.specs.Prelude.{◌≡◌, ◌<◌};
ghost use Rattle.trace.specs.Sweeps.{sweep};
ghost use Rattle.plants.specs.Rosters.{held};
ghost use Rattle.marks.specs.Bounds.{SmallKept};
ghost use Rattle.targets.specs.Targets.{kept_in, target_of};
ghost use Rattle.targets.specs.Walks.{add_member, SmallTarget, Known};

use marks::Kept;
use plants::Roster;

// Over those members that have a kept line: the signed sum of MWB, and the sums of FCR and FCL. `complete` is whether every member has one.
// The default is what is kept with an aggregate after a load.
#[derive(Clone, Copy, Debug, Default, PartialEq, Eq)]
pub struct Target {
    pub target: i32,
    pub raise: u32,
    pub lower: u32,
    pub complete: bool,
}

impl Target {
    // One member more, which has a kept line or lacks one.
    #[tactic(auto, unfolding(crate::specs::Walks::add_member))]
    fn plus(self, load: bool, kept: Option<Kept>) -> Target
        requires { SmallTarget 130000000 self × SmallKept kept }
        ensures { result ≡ add_member self load kept }
    {
        let Some(line) = kept else {
            return Target {
                complete: false,
                ..self
            };
        };
        let sum = aggregates::add_signed(load, i64::from(self.target), line.target);
        // By `as`, since it fits: `try_from` would have a case that cannot be.
        Target {
            target: sum as i32,
            raise: self.raise + line.raise,
            lower: self.lower + line.lower,
            ..self
        }
    }
}

// What the kept lines make of an aggregate, along its stretch of the list: unlike the pass that gives the mark, past a member whose line was
// unreadable.
#[tactic(auto, using(crate::proofs::Walks::along))]
fn target_of(roster: &Roster, kept: &[Option<Kept>; 64], aggregate: usize) -> Target
    requires known { Known roster.now kept.now }
    requires aggregate_in_bounds { aggregate < roster.now.aggregates }
    ensures { result ≡ target_of (held roster.now) (kept_in kept.now) aggregate }
{
    let mut target = Target {
        complete: true,
        ..Target::default()
    };
    for &place in roster.stretch(aggregate) {
        let unit = usize::from(place);
        target = target.plus(aggregates::is_load(roster.kinds[unit]), kept[unit]);
    }
    target
}

// What the kept lines make of each aggregate, in place of what was kept with it.
#[tactic(auto, using(plants::proofs::Soundness::each_aggregate))]
pub fn update_targets(roster: &Roster, kept: &[Option<Kept>; 64], targets: &mut [Target; 16])
    requires { Known roster.now kept.now }
    ensures { targets.new ≡ sweep (target_of (held roster.now) (kept_in kept.now)) roster.now.aggregates targets.old }
{
    for aggregate in 0..roster.aggregates {
        targets[aggregate] = target_of(roster, kept, aggregate);
    }
}
