// Reads a register (01, "The register"; 02, 2026-01, 2026-08 and 2026-09): the roster and the visits along its chains, or its refusal.
#![tactic(auto)]

mod header;
mod records;

ghost use Rattle.std.specs.Prelude.{◌≡◌, ◌++◌};
ghost use Rattle.chains.specs.Rules.{Known};
ghost use Rattle.chains.specs.Walks.{roster_from};
ghost use Rattle.register.specs.Registers.{register_number, chained_from, records_from, Reads};

use chains::visits::{Walk, Walked};
use chains::{Chains, ChainsInRange};
use plants::Roster;
use records::Register;

// The rules that a register can fail. 01 gives each its number, and 02, 2026-01 and 2026-09, those of the last two.
#[derive(Clone, Copy, Debug, PartialEq, Eq)]
pub enum RegisterRefusal {
    Length,
    Counts,
    RunLengths,
    Record,
    Index,
    MetTwice,
    Unmet,
    SemiScheduledMember,
    AcrossRegions,
}

impl From<RegisterRefusal> for u32 {
    ghost from_gives = { λ refusal number. number ≡ register_number refusal };

    #[tactic(auto, unfolding(crate::specs::Registers::register_number))]
    fn from(refusal: RegisterRefusal) -> u32 {
        match refusal {
            RegisterRefusal::Length => 1,
            RegisterRefusal::Counts => 2,
            RegisterRefusal::RunLengths => 3,
            RegisterRefusal::Record => 4,
            RegisterRefusal::Index => 5,
            RegisterRefusal::MetTwice => 6,
            RegisterRefusal::Unmet => 7,
            RegisterRefusal::SemiScheduledMember => 30,
            RegisterRefusal::AcrossRegions => 37,
        }
    }
}

// The visits along the chains of an accepted register, and what it loads.
#[derive(Clone, Copy)]
pub struct Registered {
    pub visits: u32,
    pub roster: Roster,
}

// What is held of the chains that were walked.
#[tactic(auto, unfolding(chains::specs::Walks::roster_from))]
fn laid_out(tested: ChainsInRange, walked: Walked) -> Roster
    ensures { result ≡ roster_from tested.chains walked }
{
    let Walk { met, members, .. } = walked.walk;
    let Walked { stretches, .. } = walked;
    let chains = tested.chains;
    let Chains { kinds, .. } = chains;
    Roster {
        units: chains.units,
        aggregates: chains.aggregates,
        small: chains.small,
        large: chains.large,
        kinds,
        chained: met,
        regions: tested.point_regions(),
        members,
        stretches,
    }
}

// 6, 7, 30 and 37, or the roster that the chains give.
fn chained_from(tested: ChainsInRange) -> Result<Registered, RegisterRefusal>
    requires { Known tested.chains }
    ensures { result ≡ chained_from tested.chains }
{
    let walked = tested.walk_chains();
    let walk = walked.walk;
    if walk.twice {
        return Err(RegisterRefusal::MetTwice);
    }
    if !chains::rest_ends(tested.chains, walk.met) {
        return Err(RegisterRefusal::Unmet);
    }
    if !chains::members_scheduled(tested.chains, walk.met) {
        return Err(RegisterRefusal::SemiScheduledMember);
    }
    let roster = laid_out(tested, walked);
    if !plants::regions_shared(&roster) {
        return Err(RegisterRefusal::AcrossRegions);
    }
    Ok(Registered {
        visits: u32::from(walk.steps),
        roster,
    })
}

// 4 and 5, each over the whole register, and what follows.
#[tactic(auto, using(crate::proofs::Readings::records))]
fn records_from(register: Register) -> Result<Registered, RegisterRefusal>
    ensures { result ≡ records_from (register.entry.header.now ++ register.entry.records.now) }
{
    let chains = register.read_fields();
    if !register.fields_known(chains.kinds, chains.regions) {
        return Err(RegisterRefusal::Record);
    }
    if !chains::indices_in(chains) {
        return Err(RegisterRefusal::Index);
    }
    chained_from(ChainsInRange { chains })
}

// Any bytes can be sent. A refused register loads nothing.
pub fn read_register(bytes: &[u8]) -> Result<Registered, RegisterRefusal>
    ensures { Reads bytes.now result }
{
    let Some((header, records)) = bytes.split_first_chunk::<16>() else {
        return Err(RegisterRefusal::Length);
    };
    if !header::counts_known(header) {
        return Err(RegisterRefusal::Counts);
    }
    if !header::is_whole(header, records) {
        return Err(RegisterRefusal::Length);
    }
    if !header::lengths_rise(header) {
        return Err(RegisterRefusal::RunLengths);
    }
    records_from(Register { header, records })
}
