// The chains of a register, as its records have them: the tests of them (01, "The register"; 02, 2026-01), and the walk that lays each
// aggregate's members side by side (02, 2026-08). Nothing follows a chain after a load.
#![tactic(auto)]

pub mod visits;

ghost use Rattle.std.specs.Prelude.{◌≡◌, ◌+◌, ◌≤◌, cond, ltb};
ghost use Rattle.std.specs.List.{list_all};
ghost use Rattle.trace.specs.Sweeps.{every};
ghost use Rattle.chains.specs.Chains.{region_at, point_regions};
ghost use Rattle.chains.specs.Rules.{next_in, head_in, ends_at, scheduled_at, indices_in, Walkable};

use kinds::Kind;
use plants::Lengths;
use std::array;

// A unit's index is its number less one; 0 ends a chain, as 01 has it. Entries past the counts are no kind and 0. `kinds`, `regions` and `next` stand
// side by side: the rules and a roster speak of each alone, and triples of them would have to be taken apart there. A bound of the counts is
// asked where it is needed and is no ghost field: `fields_of`, a definition of `register`, speaks of the chains of any bytes.
#[derive(Clone, Copy)]
pub struct Chains {
    pub units: usize,
    pub aggregates: usize,
    pub small: Lengths,
    pub large: Lengths,
    pub kinds: [Option<Kind>; 64],
    pub regions: [u8; 64],
    pub next: [u8; 64],
    pub heads: [u8; 16],
}

// Chains whose counts and indices are in range, so that they can be followed. The tests below ask less, the counts alone, so they take `Chains`.
#[derive(Clone, Copy)]
pub struct ChainsInRange {
    pub chains: Chains,
    pub ghost walkable: { Walkable chains },
}

fn next_in(next: u8, units: usize) -> bool
    ensures { result ≡ next_in units next }
{
    usize::from(next) <= units
}

// What this shares with `heads_in` is std's `all`; with both in `indices_in` itself the proof didn't close.
fn nexts_in(next: &[u8], units: usize) -> bool
    ensures { result ≡ list_all (next_in units) next.now }
{
    next.iter().all(|next| next_in(*next, units))
}

fn head_in(head: u8, units: usize) -> bool
    ensures { result ≡ head_in units head }
{
    1 <= head && next_in(head, units)
}

fn heads_in(heads: &[u8], units: usize) -> bool
    ensures { result ≡ list_all (head_in units) heads.now }
{
    heads.iter().all(|head| head_in(*head, units))
}

#[tactic(auto, using(crate::proofs::Indices::nexts_tested, crate::proofs::Indices::heads_tested), unfolding(crate::specs::Rules::indices_in))]
pub fn indices_in(chains: Chains) -> bool
    requires { (chains.units ≤ 64) × (chains.aggregates ≤ 16) }
    ensures { result ≡ indices_in chains }
{
    nexts_in(&chains.next[..chains.units], chains.units)
        && heads_in(&chains.heads[..chains.aggregates], chains.units)
}

impl ChainsInRange {
    // The region of the point at a place: a unit's own, or that of an aggregate's first member; 0 past the points.
    #[tactic(auto, using(crate::proofs::Regions::read))]
    fn region(&self, i: usize) -> u8
        ensures { result ≡ cond (ltb i (self.now.chains.units + self.now.chains.aggregates)) (region_at self.now.chains i) 0 }
    {
        let chains = &self.chains;
        if i < chains.units {
            return chains.regions[i];
        }
        if i < chains.units + chains.aggregates {
            let head = chains.heads[i - chains.units];
            return chains.regions[usize::from(head) - 1];
        }
        0
    }

    // The region of each point. The chains are lent: by value they would be copied for each point.
    pub fn point_regions(&self) -> [u8; 80]
        ensures { result ≡ point_regions self.now.chains }
    {
        array::from_fn(|i| self.region(i))
    }
}

// Every unit that no chain met has next 0.
pub fn rest_ends(chains: Chains, met: [bool; 64]) -> bool
    requires { chains.units ≤ 64 }
    ensures { result ≡ every (ends_at met chains.next) chains.units }
{
    (0..chains.units).all(|i| met[i] || chains.next[i] == 0)
}

// No unit that a chain met is semi-scheduled.
pub fn members_scheduled(chains: Chains, met: [bool; 64]) -> bool
    requires { chains.units ≤ 64 }
    ensures { result ≡ every (scheduled_at met chains.kinds) chains.units }
{
    (0..chains.units).all(|i| !(met[i] && kinds::is_semi_scheduled(chains.kinds[i])))
}
