// A day of wholesale demand response (02, 2026-04; source 002, section 3): its sums, its flag and its counts of flagged intervals, or why
// it is refused. It keeps nothing from one day to the next.
#![tactic(auto)]

mod totals;

ghost use Rattle.std.specs.Prelude.{◌≡◌, true, ◌^◌, ◌<◌, nat_abs, drop};
ghost use Rattle.wire.specs.Fields.{word_at};
ghost use Rattle.records.specs.Records.{day_bounded};
ghost use Rattle.response.specs.Days.{day_flag, day_of};
ghost use Rattle.response.specs.Answers.{day_refusal_number, day_refusal, answer_of, file_refusal, file_answer, Answers};

use records::{Flag, RECORD_BYTES};

// The result: D in Wh and T in kW over the intervals with a target, the day's flag, and how many intervals are flagged.
#[derive(Clone, Copy, Debug, PartialEq, Eq)]
pub struct Day {
    pub response: i64,
    pub target: u32,
    pub flag: Option<Flag>,
    pub under: u32,
    pub over: u32,
}

// Why there is no day: not 288 records, or a value beyond its bound.
#[derive(Clone, Copy, Debug, PartialEq, Eq)]
pub enum DayRefusal {
    Size,
    Bounds,
}

// The refusal's number in 02.
#[tactic(auto, unfolding(crate::specs::Answers::day_refusal_number))]
impl From<DayRefusal> for u32 {
    ghost from_gives = { λ refusal number. number ≡ day_refusal_number refusal };

    fn from(refusal: DayRefusal) -> u32 {
        match refusal {
            DayRefusal::Size => 31,
            DayRefusal::Bounds => 32,
        }
    }
}

// 24 × D against 1000 × T and 3000 × T: the ratio of D to T / 12, in MWh both, against 50 % and 150 %.
#[tactic(auto, unfolding(crate::specs::Days::day_flag))]
fn day_flag(response: i64, target: u32) -> Option<Flag>
    requires { nat_abs response < 2 ^ 58 }
    ensures { result ≡ day_flag response target }
{
    if target == 0 {
        return None;
    }
    let delivered = 24 * response;
    if delivered <= 1000 * i64::from(target) {
        Some(Flag::Under)
    } else if 3000 * i64::from(target) <= delivered {
        Some(Flag::Over)
    } else {
        None
    }
}

// A day that is not refused. The earlier target and the records stay apart: `records::day_bounded` says why.
#[tactic(auto, unfolding(crate::specs::Days::day_of, crate::specs::Totals::totals_of))]
fn assessed(earlier: u32, records: &[u8; RECORD_BYTES]) -> Day
    requires { day_bounded earlier records.now ≡ true }
    ensures { result ≡ day_of earlier records.now }
{
    let totals = totals::sum_up(earlier, records);
    Day {
        response: totals.response,
        target: totals.target,
        flag: day_flag(totals.response, totals.target),
        under: totals.under,
        over: totals.over,
    }
}

// The day whose records these are, after one whose last target was `earlier`. The two stay apart: `records::day_bounded` says why.
pub fn assess_day(earlier: u32, records: &[u8]) -> Result<Day, DayRefusal>
    ensures { Answers earlier records.now (answer_of earlier records.now) (day_refusal earlier records.now) result }
{
    let Some(records) = records.as_array() else {
        return Err(DayRefusal::Size);
    };
    if !records::day_bounded(earlier, records) {
        return Err(DayRefusal::Bounds);
    }
    Ok(assessed(earlier, records))
}

// The day that a file's bytes hold: the earlier target's 4 bytes, then the records.
pub fn assess_file(bytes: &[u8]) -> Result<Day, DayRefusal>
    ensures { Answers (word_at bytes.now 0) (drop 4 bytes.now) (file_answer bytes.now) (file_refusal bytes.now) result }
{
    let Some((earlier, records)) = bytes.split_first_chunk::<4>() else {
        return Err(DayRefusal::Size);
    };
    assess_day(u32::from_le_bytes(*earlier), records)
}
