// One five-minute record of wholesale demand response (02, 2026-04; source 002, section 3.1): its fields, bounds, error and flag, and
// the bounds of a day's records.
#![tactic(auto)]

ghost use Rattle.std.specs.Prelude.{◌≡◌, ◌+◌, ◌*◌, ◌^◌, ◌≤◌, nat_abs, length};
ghost use Rattle.records.specs.Intervals.{interval_at, target_bounded, energy_bounded, interval_bounded};
ghost use Rattle.records.specs.Intervals.{response_of, error_of, error_flag, interval_flag, is_under, is_over};
ghost use Rattle.records.specs.Records.{records_bounded, day_bounded};

// Underdelivery or overdelivery.
#[derive(Clone, Copy, Debug, PartialEq, Eq)]
pub enum Flag {
    Under,
    Over,
}

// One record: dispatch target MWB in kW, baseline settlement quantity BSQ and metered energy ME in Wh.
#[derive(Clone, Copy)]
pub struct Interval {
    pub target: u32,
    pub baseline: i32,
    pub metered: i32,
}

// How many records a day has.
pub const INTERVALS: usize = 288;

// The bytes of all of them.
pub const RECORD_BYTES: usize = 12 * INTERVALS;

#[tactic(auto, unfolding(crate::specs::Intervals::interval_at))]
pub fn interval_at(records: &[u8], i: usize) -> Interval
    requires { 12 * i + 12 ≤ length records.now }
    ensures { result ≡ interval_at records.now i }
{
    let at = 12 * i;
    Interval {
        target: wire::word_at(records, at),
        baseline: wire::whole_at(records, at + 4),
        metered: wire::whole_at(records, at + 8),
    }
}

// ---- bounds

fn target_bounded(target: u32) -> bool
    ensures { result ≡ target_bounded target }
{
    target <= 2_000_000
}

fn energy_bounded(energy: i32) -> bool
    ensures { result ≡ energy_bounded energy }
{
    energy.unsigned_abs() <= 200_000_000
}

// ---- error and flag

#[tactic(auto, unfolding(crate::specs::Intervals::error_flag))]
fn error_flag(error: i64) -> Option<Flag>
    ensures { result ≡ error_flag error }
{
    if error >= 6_000_000 {
        Some(Flag::Under)
    } else if error <= -6_000_000 {
        Some(Flag::Over)
    } else {
        None
    }
}

impl Interval {
    #[tactic(auto, unfolding(crate::specs::Intervals::interval_bounded))]
    fn bounded(self) -> bool
        ensures { result ≡ interval_bounded self }
    {
        target_bounded(self.target) && energy_bounded(self.baseline) && energy_bounded(self.metered)
    }

    // BSQ − ME, what was delivered.
    pub fn response(self) -> i64
        ensures value { result ≡ response_of self }
        ensures size { nat_abs result ≤ 2 ^ 32 }
    {
        i64::from(self.baseline) - i64::from(self.metered)
    }

    // In W.
    #[tactic(auto, unfolding(crate::specs::Intervals::error_of))]
    fn error(self) -> i64
        ensures { result ≡ error_of self }
    {
        1000 * i64::from(self.target) - 12 * self.response()
    }

    // The flag, after an interval with this target. The first interval of a dispatch is left out: the unit is still ramping.
    #[tactic(auto, unfolding(crate::specs::Intervals::interval_flag))]
    pub fn flag(self, before: u32) -> Option<Flag>
        ensures { result ≡ interval_flag before self }
    {
        if self.target == 0 || before == 0 {
            return None;
        }
        error_flag(self.error())
    }
}

// `matches!` at their uses was tried: the proof of `response::totals::Totals::plus` met both matches at once, and did not close.
pub fn is_under(flag: Option<Flag>) -> bool
    ensures { result ≡ is_under flag }
{
    matches!(flag, Some(Flag::Under))
}

pub fn is_over(flag: Option<Flag>) -> bool
    ensures { result ≡ is_over flag }
{
    matches!(flag, Some(Flag::Over))
}

// ---- every record

// The earlier target and the records stay apart, as the caller has them: a struct would be one more name for the two, made to be taken apart.
pub fn day_bounded(earlier: u32, records: &[u8; RECORD_BYTES]) -> bool
    ensures { result ≡ day_bounded earlier records.now }
{
    target_bounded(earlier) && (0..INTERVALS).all(|i| interval_at(records, i).bounded())
}
