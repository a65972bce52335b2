// The operator calls (01, "Report and operator calls"; 02, 2026-06 and 2026-07).
#![tactic(auto)]

ghost use Rattle.std.specs.Prelude.{◌≡◌, ◌&&◌, ◌+◌, ◌≤◌, ◌<◌, leb, IfOk};
ghost use Rattle.plants.specs.Rosters.{held};
ghost use Rattle.intervals.specs.Plants.{is_unidirectional_at};
ghost use Rattle.intervals.specs.Intervals.{Answered};
ghost use Rattle.operators.specs.Operators.{declare, reinstate, operator_refusal, allowed_level, permit_declare, permit_declared, locate_of, stored};
ghost use Rattle.operators.specs.Operators.{declare_of, reinstate_of, Looks, Reasons, Targets};

use intervals::{CallRefusal, Monitor};
use plants::Roster;
use points::{Point, Reason};
use targets::Target;

// A point that a state has: the roster that is loaded, and the point's place, its number less one.
#[derive(Clone, Copy)]
struct Located {
    roster: Roster,
    place: usize,
}

impl Located {
    // Whether it is the point of a unit of kind 1, 2 or 4.
    #[tactic(auto, unfolding(intervals::specs::Plants::is_unidirectional_at))]
    fn is_unidirectional(&self) -> bool
        requires { self.now.roster.units ≤ 64 }
        ensures { result ≡ is_unidirectional_at (held self.now.roster) self.now.place }
    {
        self.place < self.roster.units
            && telemetry::is_unidirectional(self.roster.kinds[self.place])
    }
}

// 10: a point from 1 to n+m. By `as`, as below: std has no `From` of a u32 for a usize, and `try_from` would have a case that cannot be.
fn is_named(units: usize, aggregates: usize, point: u32) -> bool
    requires { (units ≤ 64) × (aggregates ≤ 16) }
    ensures { result ≡ (leb 1 point && leb point (units + aggregates)) }
{
    1 <= point && point as usize <= units + aggregates
}

// 20, then 10.
#[tactic(auto, unfolding(crate::specs::Operators::locate_of))]
fn locate(m: &Monitor, point: u32) -> Result<Located, CallRefusal>
    ensures located { result ≡ locate_of m.now point }
    ensures within { IfOk result
        (λ located. (located.roster.units ≤ 64) × (located.place < located.roster.units + 16)) }
{
    let Some(roster) = intervals::sound_roster(m) else {
        return Err(CallRefusal::NoRegister);
    };
    if !is_named(roster.units, roster.aggregates, point) {
        return Err(CallRefusal::NoPoint);
    }
    Ok(Located {
        roster,
        place: (point - 1) as usize,
    })
}

// 11: within ±128,000,000, and not negative where that cannot be dispatched.
#[tactic(auto, unfolding(crate::specs::Operators::allowed_level))]
fn level_allowed(unidirectional: bool, level: i32) -> bool
    ensures { result ≡ allowed_level unidirectional level }
{
    level.unsigned_abs() <= 128_000_000 && !(unidirectional && level < 0)
}

// 11, then 22.
fn permit_declare(unidirectional: bool, level: i32, q: Point) -> Result<(), CallRefusal>
    ensures { result ≡ permit_declare unidirectional level q }
{
    if !level_allowed(unidirectional, level) {
        return Err(CallRefusal::Level);
    }
    if !matches!(q.status, 2 | 3) {
        return Err(CallRefusal::Status);
    }
    Ok(())
}

// 23 and 36: a declared point.
fn permit_declared(refusal: CallRefusal, q: Point) -> Result<(), CallRefusal>
    ensures { result ≡ permit_declared refusal q }
{
    if q.status == 4 { Ok(()) } else { Err(refusal) }
}

#[tactic(auto, unfolding(crate::specs::Operators::stored))]
fn store(m: &mut Monitor, place: usize, q: Point)
    requires { place < 80 }
    ensures { m.new ≡ stored m.old place q }
{
    m.points[place] = q;
}

// ---- the calls: each takes a state and a point's number, as the rules have it, of which `locate` makes a `Located`

// Declares a point at a level. Refused by 20, 10, 11 or 22.
pub fn declare(m: &mut Monitor, point: u32, level: i32) -> Result<(), CallRefusal>
    ensures { Answered (declare_of m.old point level) (operator_refusal (declare level) m.old point) m.old result m.new }
{
    let located = locate(m, point)?;
    let q = m.points[located.place];
    permit_declare(located.is_unidirectional(), level, q)?;
    store(m, located.place, q.declare(level, Reason::ByOperator));
    Ok(())
}

// Reinstates a declared point. Refused by 20, 10 or 23.
pub fn reinstate(m: &mut Monitor, point: u32) -> Result<(), CallRefusal>
    ensures { Answered (reinstate_of m.old point) (operator_refusal reinstate m.old point) m.old result m.new }
{
    let located = locate(m, point)?;
    let q = m.points[located.place];
    permit_declared(CallRefusal::NotDeclared, q)?;
    store(m, located.place, q.reinstate());
    Ok(())
}

// A point's status, runs and level. Refused by 20 or 10.
pub fn look(m: &Monitor, point: u32) -> Result<Point, CallRefusal>
    ensures { Looks m.now point result }
{
    let located = locate(m, point)?;
    Ok(m.points[located.place])
}

// Why a declared point is declared. Refused by 20, 10 or 36.
pub fn reason(m: &Monitor, point: u32) -> Result<Reason, CallRefusal>
    ensures { Reasons m.now point result }
{
    let located = locate(m, point)?;
    let q = m.points[located.place];
    permit_declared(CallRefusal::NoReason, q)?;
    Ok(q.reason)
}

// What is kept with the aggregate of this point: sums over its members' kept lines, and whether every member has one. Refused by 20 or 10, and
// by 10 once more where the point is a unit's, which has no target of its own.
pub fn target(m: &Monitor, point: u32) -> Result<Target, CallRefusal>
    ensures { Targets m.now point result }
{
    let located = locate(m, point)?;
    let aggregate = located
        .place
        .checked_sub(located.roster.units)
        .ok_or(CallRefusal::NoPoint)?;
    Ok(m.targets[aggregate])
}
