// Errors, marks and levels: of units, and what aggregates share with them (01, "Triggers and errors" and the list of marks under
// "Marks and runs"; 02, 2026-01 and 2026-02).
// Power is in kW, ramp rates in kW per minute, triggers in hundredths of a kW.
#![tactic(auto)]

ghost use Rattle.std.specs.Prelude.{◌≡◌, ◌^◌, ◌<◌, nat_abs};
ghost use Rattle.triggers.specs.Triggers.{direction_of, rate_of};
ghost use Rattle.marks.specs.Errors.{error_of, exceeds};
ghost use Rattle.marks.specs.KeptLines.{kept_line, kept_bounded, kept_from};
ghost use Rattle.marks.specs.Assessments.{kilowatts_in, is_missing, is_doubtful, is_known, mark_of, judged, without, up_of, down_of};
ghost use Rattle.marks.specs.Assessments.{is_capped, is_uncapped, unit_basis, known_assessment, readable_assessment, unit_assessment};
ghost use Rattle.marks.specs.Measures.{measures_of};
ghost use Rattle.marks.specs.Bounds.{SmallFields, SmallKeptLine, SmallKept, SmallSight, SmallBasis};
ghost use Rattle.marks.specs.Hosts.{mark_number, second_mark, unit_mark_of};

use kinds::Kind;
use telemetry::{Fields, Reading};
use triggers::Capability;

// ---- kept lines

// What the interval before left of a unit's readable line. The cap flag plays a part for kind 4 alone. A state with any numbers can be sent, so
// that they are within 01's bounds is no invariant of the type, but asked by the functions that add them up.
#[derive(Clone, Copy, Debug, PartialEq, Eq)]
pub struct Kept {
    pub capped: bool,
    pub target: i32,
    pub raise: u32,
    pub lower: u32,
}

impl From<Fields> for Kept {
    ghost from_gives = { λ f k. k ≡ kept_line f };

    #[tactic(auto, unfolding(crate::specs::KeptLines::kept_line))]
    fn from(f: Fields) -> Kept {
        Kept {
            capped: f.capped,
            target: f.target,
            raise: f.raise,
            lower: f.lower,
        }
    }
}

// A readable line is kept, whatever its quality; an unreadable one leaves nothing.
#[tactic(auto, unfolding(crate::specs::KeptLines::kept_from))]
pub fn kept_from(line: Option<Fields>) -> Option<Kept>
    ensures { result ≡ kept_from line }
{
    line.map(Kept::from)
}

// Whether a kept line is within the bounds of a readable one.
#[tactic(auto, unfolding(crate::specs::KeptLines::kept_bounded))]
pub fn kept_bounded(kept: Option<Kept>) -> bool
    ensures { result ≡ kept_bounded kept }
{
    let Some(kept) = kept else {
        return true;
    };
    kept.target.unsigned_abs() <= 2_000_000 && kept.raise <= 2_000_000 && kept.lower <= 2_000_000
}

// ---- the assessment of a point

#[derive(Clone, Copy, Debug, PartialEq, Eq)]
pub enum Mark {
    Off,
    Blank,
    Clear,
    Doubt,
    Small,
    Large,
}

// The mark, the signed error, the small trigger, and the level at which the mark would declare the point.
#[derive(Clone, Copy)]
pub struct Assessment {
    pub mark: Mark,
    pub error: i32,
    pub trigger: u32,
    pub level: i32,
}

// What a point that is neither Off nor Blank is assessed from. Where it is capped, only a positive error counts; where it is a unit of kind 1, 2
// or 4, its level is not negative.
#[derive(Clone, Copy)]
pub struct Basis {
    pub power: i64,
    pub target: i64,
    pub up: i64,
    pub down: i64,
    pub availability: u64,
    pub rate: u64,
    pub doubtful: bool,
    pub capped: bool,
    pub unidirectional: bool,
}

// How far the power is above the target with its up side, where it is above; else how far it is below the target with its down side, a negative
// number, where it is below; else 0.
#[tactic(auto, unfolding(crate::specs::Errors::error_of))]
fn error_of(b: Basis) -> i64
    requires { SmallBasis b }
    ensures { result ≡ error_of b }
{
    let over = b.power - (b.target + b.up);
    let under = b.power - (b.target - b.down);
    if over > 0 { over } else { under.min(0) }
}

#[tactic(auto, unfolding(crate::specs::Errors::exceeds))]
fn over_trigger(error: i64, trigger: u64) -> bool
    requires { nat_abs error < 2 ^ 40 }
    ensures { result ≡ exceeds error trigger }
{
    trigger < error.unsigned_abs() * 100
}

#[tactic(auto, unfolding(crate::specs::Assessments::mark_of))]
fn mark_of(error: i64, small: u64, large: u64, doubtful: bool) -> Mark
    requires { nat_abs error < 2 ^ 40 }
    ensures { result ≡ mark_of error small large doubtful }
{
    if !over_trigger(error, small) {
        Mark::Clear
    } else if doubtful {
        Mark::Doubt
    } else if over_trigger(error, large) {
        Mark::Large
    } else {
        Mark::Small
    }
}

#[tactic(auto, using(std::proofs::lemmas::Int::ints, crate::proofs::Small::sizes), unfolding(crate::specs::Assessments::judged))]
pub fn judge(b: Basis) -> Assessment
    requires { SmallBasis b }
    ensures { result ≡ judged b }
{
    let error = error_of(b);
    let small = triggers::trigger_of(3, 200, b.availability, b.rate);
    let large = triggers::trigger_of(5, 400, b.availability, b.rate);
    let counted = signed::floored(b.capped, error);
    let level = signed::floored(b.unidirectional, b.power);
    // By `as`, since each fits: `try_from` would have a case that cannot be.
    Assessment {
        mark: mark_of(counted, small, large, b.doubtful),
        error: error as i32,
        trigger: small as u32,
        level: level as i32,
    }
}

pub fn unassessed(mark: Mark) -> Assessment
    ensures { result ≡ without mark }
{
    Assessment {
        mark,
        error: 0,
        trigger: 0,
        level: 0,
    }
}

// MW as whole kW, where there is a value.
#[tactic(auto, unfolding(crate::specs::Assessments::kilowatts_in))]
pub fn power_in(reading: Reading) -> i32
    ensures { result ≡ kilowatts_in reading }
{
    match reading {
        Reading::Good(x) | Reading::Substituted(x) => floats::kilowatts(x),
        Reading::Missing => 0,
    }
}

#[tactic(auto, unfolding(crate::specs::Assessments::is_missing))]
fn is_missing(reading: Reading) -> bool
    ensures { result ≡ is_missing reading }
{
    matches!(reading, Reading::Missing)
}

// A mark beyond a trigger turns to Doubt on a substituted value.
#[tactic(auto, unfolding(crate::specs::Assessments::is_doubtful))]
pub fn is_doubtful(reading: Reading) -> bool
    ensures { result ≡ is_doubtful reading }
{
    matches!(reading, Reading::Substituted(_))
}

// Whether a readable line can be assessed: it has a value, and a line is kept before it.
#[tactic(auto, unfolding(crate::specs::Assessments::is_known))]
pub fn is_known(f: Fields, kept: Option<Kept>) -> bool
    ensures { result ≡ is_known f kept }
{
    !is_missing(f.power()) && kept.is_some()
}

// ---- a unit

// A unit as an interval shows it.
#[derive(Clone, Copy)]
pub struct Sight {
    pub kind: Option<Kind>,
    pub line: Option<Fields>,
    pub kept: Option<Kept>,
}

// The regulation sides of a unit of this kind, up and down: a load's are turned.
fn sides_of(kind: Option<Kind>, kept: Kept) -> (i64, i64)
    ensures up { result.0 ≡ up_of kind kept }
    ensures down { result.1 ≡ down_of kind kept }
{
    let raise = i64::from(kept.raise);
    let lower = i64::from(kept.lower);
    match kind {
        Some(Kind::Load) => (lower, raise),
        _ => (raise, lower),
    }
}

// What a readable line comes to in whole kW.
#[derive(Clone, Copy)]
pub struct Measures {
    pub power: i32,
    pub capability: Capability,
}

// A readable line, and what it comes to.
#[derive(Clone, Copy)]
pub struct Measured {
    pub fields: Fields,
    pub measures: Measures,
    pub ghost measured: { measures ≡ measures_of fields },
}

#[tactic(auto, unfolding(crate::specs::Measures::measures_of))]
pub fn measure(fields: Fields) -> Measured
    ensures { result.fields ≡ fields }
{
    let measures = Measures {
        power: power_in(fields.power()),
        capability: triggers::capability_of(
            fields.readings,
            fields.availability,
            fields.bid_up,
            fields.bid_down,
        ),
    };
    Measured { fields, measures }
}

// The rate of change goes by this line's target.
fn unit_rate(target: i32, measures: Measures) -> u64
    ensures { result ≡ rate_of (direction_of target measures.power) measures.capability }
{
    let direction = triggers::direction_of(i64::from(target), i64::from(measures.power));
    measures.capability.rate(direction)
}

// A semi-scheduled unit whose cap flag is 1.
fn is_capped(kind: Option<Kind>, flag: bool) -> bool
    ensures { result ≡ is_capped kind flag }
{
    kinds::is_semi_scheduled(kind) && flag
}

// A semi-scheduled unit whose cap flag is 0. This is not the opposite of the test before: a unit of another kind passes neither.
fn is_uncapped(kind: Option<Kind>, flag: bool) -> bool
    ensures { result ≡ is_uncapped kind flag }
{
    kinds::is_semi_scheduled(kind) && !flag
}

#[tactic(auto, unfolding(crate::specs::Assessments::unit_basis, crate::specs::Measures::measures_of))]
fn unit_basis(kind: Option<Kind>, line: Measured, kept: Kept) -> Basis
    ensures { result ≡ unit_basis kind line.fields kept }
{
    let (up, down) = sides_of(kind, kept);
    Basis {
        power: i64::from(line.measures.power),
        target: i64::from(kept.target),
        up,
        down,
        availability: u64::from(line.fields.availability),
        rate: unit_rate(line.fields.target, line.measures),
        doubtful: is_doubtful(line.fields.power()),
        capped: is_capped(kind, kept.capped),
        unidirectional: telemetry::is_unidirectional(kind),
    }
}

// A unit that has a value and a kept line.
#[tactic(auto, unfolding(crate::specs::Assessments::known_assessment))]
fn assess_known(kind: Option<Kind>, line: Measured, kept: Kept) -> Assessment
    requires { SmallFields line.fields × SmallKeptLine kept }
    ensures { result ≡ known_assessment kind line.fields kept }
{
    if is_uncapped(kind, kept.capped) {
        unassessed(Mark::Off)
    } else {
        judge(unit_basis(kind, line, kept))
    }
}

// A unit whose line is readable. Kind, line and kept line are no struct: here and for an aggregate's sums the kept line may be missing, in
// `assess_known` it is there, so they would be two structs.
#[tactic(auto, unfolding(crate::specs::Assessments::readable_assessment))]
pub fn assess_readable(
    kind: Option<Kind>,
    chained: bool,
    line: Measured,
    kept: Option<Kept>,
) -> Assessment
    requires { SmallFields line.fields × SmallKept kept }
    ensures { result ≡ readable_assessment kind chained line.fields kept }
{
    if chained && line.fields.mode != 2 {
        return unassessed(Mark::Off);
    }
    match kept {
        Some(kept) if !is_missing(line.fields.power()) => assess_known(kind, line, kept),
        _ => unassessed(Mark::Blank),
    }
}

// The assessment of a unit, which stands in a chain or in none.
#[tactic(auto, unfolding(crate::specs::Assessments::unit_assessment))]
pub fn assess_unit(chained: bool, unit: Sight) -> Assessment
    requires { SmallSight unit }
    ensures { result ≡ unit_assessment chained unit }
{
    match unit.line {
        Some(f) => assess_readable(unit.kind, chained, measure(f), unit.kept),
        None => unassessed(Mark::Blank),
    }
}

// ---- the C host's function

impl From<Mark> for u8 {
    ghost from_gives = { λ mark number. number ≡ mark_number mark };

    #[tactic(auto, unfolding(crate::specs::Hosts::mark_number))]
    fn from(mark: Mark) -> u8 {
        match mark {
            Mark::Off => 0,
            Mark::Blank => 1,
            Mark::Clear => 2,
            Mark::Doubt => 3,
            Mark::Small => 4,
            Mark::Large => 5,
        }
    }
}

// The number, which `Hosts` of the definitions speaks of.
#[tactic(auto, using(crate::proofs::Small::line_small, crate::proofs::Small::kept_small), unfolding(crate::specs::Hosts::second_mark))]
fn second_mark(kind: Option<Kind>, earlier: &[u8], later: &[u8]) -> u8
    ensures { result ≡ second_mark kind earlier.now later.now }
{
    let kept = kept_from(telemetry::read_line(kind, false, earlier));
    let line = telemetry::read_line(kind, false, later);
    u8::from(assess_unit(false, Sight { kind, line, kept }).mark)
}

// The mark, as 01 numbers it, for the second of two successive lines of a unit in no chain; 6 for an unknown kind or a line
// that is not 40 bytes. The C interface takes any number as a kind and any line, and so has a number for those too.
// That of a known kind fits, and is narrowed by `as`.
#[tactic(auto, unfolding(crate::specs::Hosts::unit_mark_of))]
pub fn unit_mark(kind: u32, earlier: &[u8], later: &[u8]) -> u32
    ensures { result ≡ unit_mark_of kind earlier.now later.now }
{
    let sized = earlier.len() == 40 && later.len() == 40;
    let known = (1..=4).contains(&kind);
    if sized && known {
        return u32::from(second_mark(kinds::kind_of(kind as u8), earlier, later));
    }
    6
}
