// Units and aggregates as `tools/trial_marks.py` writes them, and what `marks` makes of each.

ghost use Rattle.std.specs.Prelude.{◌*◌, ◌<◌, ◌≤◌, length};
ghost use Rattle.marks.specs.Bounds.{SmallSight};
ghost use Rattle.aggregates.specs.Sizes.{SmallSums};

use crate::{cases, samples};
use aggregates::Sums;
use marks::{Assessment, Mark, Sight};
use output::Output;
use std::io::{Eprint, Print};
use text::Field;

// Words that this program alone prints, so they are no `Display` of `marks`.
fn name_of(mark: Mark) -> &'static [u8] {
    match mark {
        Mark::Off => b"OFF",
        Mark::Blank => b"BLANK",
        Mark::Clear => b"CLEAR",
        Mark::Doubt => b"DOUBT",
        Mark::Small => b"SMALL",
        Mark::Large => b"LARGE",
    }
}

// A unit by its kind and its sample.
fn sight_of(unit: &[u8; 82], chained: bool) -> Sight
    ensures { SmallSight result }
{
    let sample = &unit[1..].as_chunks::<81>().0[0];
    samples::sight_of(sample, kinds::kind_of(unit[0]), chained)
}

// The sums over `count` members, first to last; where fewer units are given, they come round again.
fn sums_of(units: &[[u8; 82]], count: usize) -> Sums
    requires { (0 < length units.now) × (count ≤ 64) }
    ensures { SmallSums (2000000 * count) result }
{
    let mut sums = Sums::default();
    for i in 0..count {
        let unit = sight_of(&units[i % units.len()], true);
        sums = sums.plus(samples::view_of(unit));
    }
    sums
}

// What a case assesses.
#[derive(Clone, Copy)]
enum Form {
    Unit { chained: bool },
    Aggregate,
}

impl From<u8> for Form {
    fn from(number: u8) -> Form {
        match number {
            0 => Form::Unit { chained: false },
            1 => Form::Unit { chained: true },
            _ => Form::Aggregate,
        }
    }
}

fn assess(form: Form, units: &[[u8; 82]], count: usize) -> Assessment
    requires { (0 < length units.now) × (count ≤ 64) }
{
    match form {
        Form::Unit { chained } => marks::assess_unit(chained, sight_of(&units[0], chained)),
        Form::Aggregate => sums_of(units, count).assess(),
    }
}

// A case is a label, its form by a number, how many units it has, and how many units are given, which follow.
pub(crate) fn run_case<R: Print + Eprint>(output: &Output<R>, cases: &mut &[u8]) -> Option<bool> {
    let label = cases::sized(cases)?;
    let form = Form::from(*cases.split_off_first()?);
    let count = usize::from(*cases.split_off_first()?);
    let given = usize::from(*cases.split_off_first()?);
    let units = cases.split_off(..82 * given)?.as_chunks::<82>().0;
    if units.is_empty() || count > 64 {
        return None;
    }
    let a = assess(form, units, count);
    let fields = [
        Field::Words(b":"),
        Field::Words(name_of(a.mark)),
        Field::I32(a.error),
        Field::U32(a.trigger),
        Field::I32(a.level),
    ];
    Some(cases::write_line(output, label, &fields))
}
