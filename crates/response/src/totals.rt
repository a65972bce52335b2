// The sums and counts of a day, interval after interval.
ghost use Rattle.std.specs.Prelude.{◌≡◌, true};
ghost use Rattle.records.specs.Intervals.{interval_bounded};
ghost use Rattle.records.specs.Records.{day_bounded};
ghost use Rattle.response.specs.Totals.{SmallTotals, add_interval, totals_of};

use records::{Interval, RECORD_BYTES};

// Of the intervals so far: D and T, and how many are flagged.
#[derive(Clone, Copy, Default)]
pub(crate) struct Totals {
    pub response: i64,
    pub target: u32,
    pub under: u32,
    pub over: u32,
}

impl Totals {
    // An interval with no target is in neither sum and is not flagged.
    #[tactic(auto, unfolding(crate::specs::Totals::add_interval, crate::specs::Totals::add_dispatched))]
    fn plus(self, before: u32, interval: Interval) -> Totals
        requires small { SmallTotals self }
        requires bounded { interval_bounded interval ≡ true }
        ensures { result ≡ add_interval self before interval }
    {
        if interval.target == 0 {
            return self;
        }
        let flag = interval.flag(before);
        Totals {
            response: self.response + interval.response(),
            target: self.target + interval.target,
            under: self.under + u32::from(records::is_under(flag)),
            over: self.over + u32::from(records::is_over(flag)),
        }
    }
}

// The earlier target and the records stay apart: `records::day_bounded` says why.
pub(crate) fn sum_up(earlier: u32, records: &[u8; RECORD_BYTES]) -> Totals
    requires { day_bounded earlier records.now ≡ true }
    ensures { result ≡ totals_of earlier records.now 288 }
{
    let mut totals = Totals::default();
    let mut before = earlier;
    for i in 0..records::INTERVALS {
        let interval = records::interval_at(records, i);
        totals = totals.plus(before, interval);
        before = interval.target;
    }
    totals
}
