// What a monitor holds of a register: run lengths, units, kinds, regions, and each aggregate's members side by side (01, "The register"; 02,
// 2026-08 and 2026-09).
#![tactic(auto)]

ghost use Rattle.std.specs.Prelude.{◌≡◌, ◌≤◌, ◌<◌, length, true};
ghost use Rattle.plants.specs.Plants.{shares_region, regions_shared};
ghost use Rattle.plants.specs.Rosters.{no_roster, no_stretch, counts_in, kinds_known, regions_known, places_in};
ghost use Rattle.plants.specs.Rosters.{stretch_in, stretches_in, stretch_of, held, roster_sound};

use kinds::Kind;

// Run lengths: to Not-Responding, to Pending, to declaration.
#[derive(Clone, Copy, Debug, Default, PartialEq, Eq)]
pub struct Lengths {
    pub not_responding: u8,
    pub pending: u8,
    pub declaration: u8,
}

// Where an aggregate's members stand in the list of all members, and how many there are.
#[derive(Clone, Copy, Debug, Default, PartialEq, Eq)]
pub struct Stretch {
    pub start: u8,
    pub count: u8,
}

// A unit's place is its number less one; its kind is `None` where the register's number is not listed. `members` has the places of all
// members, aggregate after aggregate, each in the order of its chain, and `stretches` where those of each aggregate stand. `chained` is
// whether a unit is a member of some aggregate. `regions` goes by point, units first, so that no turn of an interval looks up a member for its
// aggregate's. Entries past the counts are no kind, 0 and false. Kinds come whole from a register's records
// and `chained` whole from the walk along its chains, so they are two lists, as in the rules' plant, and no list of pairs.
// `small` and `large` are two fields here, in `Chains` and in `Rule`, as in the rules' plant: each use reads one length by the name of its run.
#[derive(Clone, Copy, Debug, Default, PartialEq, Eq)]
pub struct Roster {
    pub units: usize,
    pub aggregates: usize,
    pub small: Lengths,
    pub large: Lengths,
    pub kinds: [Option<Kind>; 64],
    pub chained: [bool; 64],
    pub regions: [u8; 80],
    pub members: [u8; 64],
    pub stretches: [Stretch; 16],
}

pub fn counts_in(units: usize, aggregates: usize) -> bool
    ensures { result ≡ counts_in units aggregates }
{
    1 <= units && units <= 64 && aggregates <= 16
}

// A list and a count, as in the definitions: a slice would be shown to be their list's front by each caller.
#[tactic(auto, unfolding(crate::specs::Rosters::kinds_known))]
pub fn known_kinds(kinds: &[Option<Kind>; 64], units: usize) -> bool
    requires { units ≤ 64 }
    ensures { result ≡ kinds_known kinds.now units }
{
    kinds[..units].iter().all(|kind| kind.is_some())
}

// The first regions of a register's units, or of a roster's points.
pub fn known_regions(regions: &[u8], count: usize) -> bool
    requires { count ≤ length regions.now }
    ensures { result ≡ regions_known regions.now count }
{
    regions[..count].iter().all(|region| *region <= 4)
}

// Every entry of the list is the place of a unit, past the last stretch too.
fn places_in(members: &[u8; 64], units: usize) -> bool
    ensures { result ≡ places_in members.now units }
{
    members.iter().all(|place| usize::from(*place) < units)
}

// A stretch ends within the list.
fn stretch_in(stretch: Stretch) -> bool
    ensures { result ≡ stretch_in stretch }
{
    usize::from(stretch.start) + usize::from(stretch.count) <= 64
}

// What this test shares with the other two over a list is std's `all`.
#[tactic(auto, unfolding(crate::specs::Rosters::stretches_in))]
fn stretches_in(stretches: &[Stretch; 16], aggregates: usize) -> bool
    requires { aggregates ≤ 16 }
    ensures { result ≡ stretches_in stretches.now aggregates }
{
    stretches[..aggregates]
        .iter()
        .all(|stretch| stretch_in(*stretch))
}

// Whether the roster can be gone over: a call can be handed one that no register gave.
#[tactic(auto, unfolding(crate::specs::Rosters::roster_sound))]
pub fn roster_sound(roster: &Roster) -> bool
    ensures { result ≡ roster_sound roster.now }
{
    counts_in(roster.units, roster.aggregates)
        && known_kinds(&roster.kinds, roster.units)
        && known_regions(&roster.regions, roster.units + roster.aggregates)
        && places_in(&roster.members, roster.units)
        && stretches_in(&roster.stretches, roster.aggregates)
}

impl Roster {
    // The places of an aggregate's members, in the order of its chain. That there is such an aggregate is asked here, in `passes` and in
    // `targets`: an index type would be made in each loop and read once.
    #[tactic(auto, using(crate::proofs::Soundness::in_bounds))]
    pub fn stretch(&self, aggregate: usize) -> &[u8]
        requires sound { roster_sound self.now ≡ true }
        requires aggregate_in_bounds { aggregate < self.now.aggregates }
        ensures { result.now ≡ stretch_of self.now aggregate }
    {
        let stretch = self.stretches[aggregate];
        let start = usize::from(stretch.start);
        let end = start + usize::from(stretch.count);
        &self.members[start..end]
    }

    // Whether the members of an aggregate have its region. By a loop: in the closure of an `all` the bound of a member's place got no proof.
    #[tactic(auto, using(crate::proofs::Soundness::in_bounds, crate::proofs::Regions::shared))]
    fn shares_region(&self, aggregate: usize) -> bool
        requires sound { roster_sound self.now ≡ true }
        requires aggregate_in_bounds { aggregate < self.now.aggregates }
        ensures { result ≡ shares_region (held self.now) aggregate }
    {
        let region = self.regions[self.units + aggregate];
        for &place in self.stretch(aggregate) {
            if self.regions[usize::from(place)] != region {
                return false;
            }
        }
        true
    }
}

// 37: whether the members of each aggregate have its region.
#[tactic(auto, unfolding(crate::specs::Plants::regions_shared))]
pub fn regions_shared(roster: &Roster) -> bool
    requires { roster_sound roster.now ≡ true }
    ensures { result ≡ regions_shared (held roster.now) }
{
    (0..roster.aggregates).all(|aggregate| roster.shares_region(aggregate))
}
