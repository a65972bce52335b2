// Lines of units as `tools/trial_telemetry.py` writes them, and what `telemetry` makes of each.

use crate::cases;
use output::Output;
use std::io::{Eprint, Print};
use telemetry::{Fields, Reading};
use text::Field;

// Words that this program alone prints, so they are no `Display` of `telemetry`.
fn quality_of(reading: Reading) -> &'static [u8] {
    match reading {
        Reading::Good(_) => b"good",
        Reading::Substituted(_) => b"substituted",
        Reading::Missing => b"missing",
    }
}

fn write_fields<R: Print + Eprint>(output: &Output<R>, label: &[u8], f: Fields) -> bool {
    let [power, up, down] = [f.readings.power, f.readings.ramp_up, f.readings.ramp_down].map(
        |bits| floats::kilowatts(bits),
    );
    let fields = [
        Field::Words(b":"),
        Field::Words(quality_of(f.power())),
        Field::U8(f.mode),
        Field::U8(f.capped.into()),
        Field::I32(f.target),
        Field::U32(f.availability),
        Field::U32(f.raise),
        Field::U32(f.lower),
        Field::U32(f.bid_up),
        Field::U32(f.bid_down),
        Field::I32(power),
        Field::I32(up),
        Field::I32(down),
    ];
    cases::write_line(output, label, &fields)
}

// A case is a label, a kind, whether the unit stands in a chain, and the bytes of its line.
pub(crate) fn run_case<R: Print + Eprint>(output: &Output<R>, cases: &mut &[u8]) -> Option<bool> {
    let label = cases::sized(cases)?;
    let kind = cases.split_off_first()?;
    let chained = cases.split_off_first()?;
    let line = cases::sized(cases)?;
    Some(
        match telemetry::read_line(kinds::kind_of(*kind), *chained == 1, line) {
            Some(fields) => write_fields(output, label, fields),
            None => cases::write_line(output, label, &[Field::Words(b": unreadable")]),
        },
    )
}
