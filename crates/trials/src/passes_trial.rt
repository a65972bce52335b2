// Registers and units' lines as `tools/trial_passes.py` writes them, and what a pass over each aggregate's members gives.

ghost use Rattle.std.specs.Prelude.{ℕ, ◌<◌, length, get_or, IfSome, None};
ghost use Rattle.aggregates.specs.Views.{SmallView};

use crate::{cases, samples};
use aggregates::View;
use output::Output;
use passes::Pass;
use plants::Roster;
use std::array;
use std::io::{Eprint, Print};
use text::Field;

// What is seen of the unit at a place, none where there is no unit. Its pick says which sample it has. Picks come round again, and so do samples.
fn view_at(roster: &Roster, samples: &[[u8; 81]], picks: &[u8], place: usize) -> Option<View>
    requires { (0 < length samples.now) × (0 < length picks.now) × (place < 64) }
    ensures { IfSome result (λ view. SmallView view) }
{
    if roster.units <= place {
        return None;
    }
    let pick = usize::from(picks[place % picks.len()]);
    let sample = &samples[pick % samples.len()];
    samples::view_of(samples::sight_of(sample, roster.kinds[place], roster.chained[place]))
}

fn views(roster: &Roster, samples: &[[u8; 81]], picks: &[u8]) -> [Option<View>; 64]
    requires { (0 < length samples.now) × (0 < length picks.now) }
    ensures { (i : ℕ) → i < 64 → IfSome (get_or result i None) (λ view. SmallView view) }
{
    array::from_fn(|place| view_at(roster, samples, picks, place))
}

// The aggregate's number, its mark as the report has it, error, trigger and level, and how many members were looked at.
fn write_pass<R: Print + Eprint>(
    output: &Output<R>,
    label: &[u8],
    aggregate: usize,
    pass: &Pass,
) -> bool {
    let a = pass.assessment;
    let fields = [
        Field::Words(b":"),
        Field::U64(aggregate as u64),
        Field::U8(u8::from(a.mark)),
        Field::I32(a.error),
        Field::U32(a.trigger),
        Field::I32(a.level),
        Field::U32(pass.looked),
    ];
    cases::write_line(output, label, &fields)
}

fn write_case<R: Print + Eprint>(
    output: &Output<R>,
    label: &[u8],
    bytes: &[u8],
    samples: &[[u8; 81]],
    picks: &[u8],
) -> bool
    requires { (0 < length samples.now) × (0 < length picks.now) }
{
    let roster = match register::read_register(bytes) {
        Ok(registered) => registered.roster,
        Err(refusal) => {
            let fields = [Field::Words(b": refused"), Field::U32(refusal.into())];
            return cases::write_line(output, label, &fields);
        }
    };
    let passes = passes::assess_aggregates(&roster, &views(&roster, samples, picks));
    (1..=roster.aggregates).zip(&passes).all(|(aggregate, pass)| write_pass(
        output, label, aggregate, pass,
    ))
}

// A case is a label, a register, samples with their number before them, and picks with theirs.
pub(crate) fn run_case<R: Print + Eprint>(output: &Output<R>, cases: &mut &[u8]) -> Option<bool> {
    let label = cases::sized(cases)?;
    let register = cases::long_sized(cases)?;
    let given = usize::from(*cases.split_off_first()?);
    let samples = cases.split_off(..81 * given)?.as_chunks::<81>().0;
    let picks = cases::sized(cases)?;
    if samples.is_empty() || picks.is_empty() {
        return None;
    }
    Some(write_case(output, label, register, samples, picks))
}
