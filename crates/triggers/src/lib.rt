// Rates of change and triggers, which units and aggregates share (01, "Triggers and errors").
// Power is in kW, ramp rates in kW per minute, triggers in hundredths of a kW.
#![tactic(auto)]

ghost use Rattle.std.specs.Prelude.{◌≡◌, ◌*◌, ◌^◌, ◌≤◌, min, nat_abs};
ghost use Rattle.floats.specs.Kilowatts.{kilowatts_of};
ghost use Rattle.triggers.specs.Triggers.{direction_of, opposite, rate_of, capability_of, add_capability, trigger_of};
ghost use Rattle.triggers.specs.Bounds.{SmallCapability};

use std::cmp::Ordering;
use telemetry::Readings;

// ---- rate of change

// Which way the power has to go to reach the target.
#[derive(Clone, Copy)]
pub enum Direction {
    Up,
    Down,
    Level,
}

// Availability, and the rates of change up, down and at equality: a unit's own, or sums over units.
#[derive(Clone, Copy, Default)]
pub struct Capability {
    pub availability: u64,
    pub up: u64,
    pub down: u64,
    pub least: u64,
}

#[tactic(auto, unfolding(crate::specs::Triggers::direction_of))]
pub fn direction_of(target: i64, power: i64) -> Direction
    ensures { result ≡ direction_of target power }
{
    match power.cmp(&target) {
        Ordering::Less => Direction::Up,
        Ordering::Greater => Direction::Down,
        Ordering::Equal => Direction::Level,
    }
}

impl Direction {
    // A load's part in an aggregate goes the other way.
    #[tactic(auto, unfolding(crate::specs::Triggers::opposite))]
    pub fn turned(self) -> Direction
        ensures { result ≡ opposite self }
    {
        match self {
            Direction::Up => Direction::Down,
            Direction::Down => Direction::Up,
            Direction::Level => Direction::Level,
        }
    }
}

impl Capability {
    #[tactic(auto, unfolding(crate::specs::Triggers::rate_of))]
    pub fn rate(self, direction: Direction) -> u64
        ensures { result ≡ rate_of direction self }
    {
        match direction {
            Direction::Up => self.up,
            Direction::Down => self.down,
            Direction::Level => self.least,
        }
    }

    // The sums with one unit more, where it counts. A flag, and no Option of a unit: both callers would make one by whether the unit is a load.
    #[tactic(auto, unfolding(crate::specs::Triggers::add_capability))]
    pub fn plus(self, counts: bool, unit: Capability) -> Capability
        requires { SmallCapability (2 ^ 60) self × SmallCapability (2 ^ 60) unit }
        ensures { result ≡ add_capability counts self unit }
    {
        if !counts {
            return self;
        }
        Capability {
            availability: self.availability + unit.availability,
            up: self.up + unit.up,
            down: self.down + unit.down,
            least: self.least + unit.least,
        }
    }
}

// The lesser of a SCADA rate, which is in MW per minute, and a bid rate.
fn allowed_rate(scada: f32, bid: u32) -> u64
    ensures { result ≡ min (nat_abs (kilowatts_of scada)) bid }
{
    u64::from(floats::kilowatts(scada).unsigned_abs().min(bid))
}

// A unit's own, from the readings, the availability and the bid rates of its line.
#[tactic(auto, unfolding(crate::specs::Triggers::capability_of))]
pub fn capability_of(
    readings: Readings,
    availability: u32,
    bid_up: u32,
    bid_down: u32,
) -> Capability
    ensures { result ≡ capability_of readings availability bid_up bid_down }
{
    let up = allowed_rate(readings.ramp_up, bid_up);
    let down = allowed_rate(readings.ramp_down, bid_down);
    Capability {
        availability: u64::from(availability),
        up,
        down,
        least: up.min(down),
    }
}

// ---- triggers

// A trigger: at least 6 MW, else the lesser of a share of the availability, in per cent, and some hundredths of a minute's ramping.
#[tactic(auto, unfolding(crate::specs::Triggers::trigger_of))]
pub fn trigger_of(share: u64, ramping: u64, availability: u64, rate: u64) -> u64
    requires { (share ≤ 5) × (ramping ≤ 400) × (availability ≤ 130000000) × (rate ≤ 130000000) }
    ensures { result ≡ trigger_of share ramping availability rate }
{
    (share * availability).min(ramping * rate).max(600_000)
}
