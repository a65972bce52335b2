// What the trials of marks and passes share: a unit by a sample, and the unit as its aggregate takes it.
ghost use Rattle.std.specs.Prelude.{◌≡◌, cond, eqb, get_or, take, drop, []};
ghost use Rattle.telemetry.specs.Lines.{line_of};
ghost use Rattle.marks.specs.Bounds.{SmallSight};
ghost use Rattle.marks.specs.KeptLines.{kept_from};
ghost use Rattle.aggregates.specs.Views.{view_of};

use aggregates::View;
use kinds::Kind;
use marks::Sight;

// The line before this interval's; no bytes where none is kept, and no `Option`: no bytes are an unreadable line already, so that `None`
// would be taken as they are.
fn line_before(sample: &[u8; 81]) -> &[u8]
    ensures { result.now ≡ cond (eqb (get_or sample.now 0 0) 1) (take 40 (drop 41 sample.now)) [] }
{
    if sample[0] == 1 { &sample[41..] } else { &[] }
}

// A unit by a sample: 1 where a line is kept, this interval's line and the one before it. No bytes are an unreadable
// line, of which nothing is kept.
#[tactic(auto, using(marks::proofs::Small::line_small, marks::proofs::Small::kept_small))]
pub fn sight_of(sample: &[u8; 81], kind: Option<Kind>, chained: bool) -> Sight
    ensures small { SmallSight result }
    ensures kind { result.kind ≡ kind }
    ensures line { result.line ≡ line_of kind chained (take 40 (drop 1 sample.now)) }
    ensures kept { result.kept ≡ kept_from (line_of kind chained (cond (eqb (get_or sample.now 0 0) 1) (take 40 (drop 41 sample.now)) [])) }
{
    let line = telemetry::read_line(kind, chained, &sample[1..41]);
    Sight {
        kind,
        line,
        kept: marks::kept_from(telemetry::read_line(kind, chained, line_before(sample))),
    }
}

// A unit as the sums and the passes of its aggregate take it.
#[tactic(auto, unfolding(aggregates::specs::Views::view_of, aggregates::specs::Views::line_view))]
pub fn view_of(unit: Sight) -> Option<View>
    ensures { result ≡ view_of unit }
{
    let line = marks::measure(unit.line?);
    Some(aggregates::view_of(unit.kind, line, unit.kept))
}
