// A point's record (01, "Marks and runs"), why it is declared (02, 2026-06), and its 16 bytes of the report ("Report and operator
// calls").
#![tactic(auto)]

ghost use Rattle.std.specs.Prelude.{◌≡◌, ◌+◌, ◌≤◌, length};
ghost use Rattle.wire.specs.Fields.{put_at};
ghost use Rattle.points.specs.Points.{longer, stored_run, span_to, span_of, reason_of, normal, declared_at, cleared, counted};
ghost use Rattle.points.specs.Points.{reaches, status_of, graded, is_counted, declares, settled, marked_by};
ghost use Rattle.points.specs.Records.{record_of};

use marks::{Assessment, Mark};
use plants::Lengths;

// The marks that a run has counted, as stored, and the interval number of the first of them. No run is 0 and 0, since the report shows the
// count.
#[derive(Clone, Copy, Debug, Default, PartialEq, Eq)]
pub struct Run {
    pub count: u8,
    pub first: u32,
}

// The interval numbers of the first mark counted in a run and of the declaring mark.
#[derive(Clone, Copy, Debug, Default, PartialEq, Eq)]
pub struct Span {
    pub first: u32,
    pub last: u32,
}

// Why a point is declared.
#[derive(Clone, Copy, Debug, Default, PartialEq, Eq)]
pub enum Reason {
    #[default]
    ByOperator,
    BySmallRun(Span),
    ByLargeRun(Span),
}

impl Reason {
    // What is told of it, both 0 for the operator.
    #[tactic(auto, unfolding(crate::specs::Points::span_of))]
    pub fn span(self) -> Span
        ensures { result ≡ span_of self }
    {
        match self {
            Reason::ByOperator => Span { first: 0, last: 0 },
            Reason::BySmallRun(span) | Reason::ByLargeRun(span) => span,
        }
    }
}

// Status, stored runs, constraint level and reason. A declared point has status 4 and no runs; one that is not has no reason to tell,
// and holds `ByOperator`: no Option, since a state with status 4 and none could be sent, and the call for the reason would need an answer for it.
// The status is a number, and is tested and given as one, since a state with any can be sent to a call, and a look tells it. The default is
// Normal: status 0, no runs, level 0.
#[derive(Clone, Copy, Debug, Default, PartialEq, Eq)]
pub struct Point {
    pub status: u8,
    pub small: Run,
    pub large: Run,
    pub level: i32,
    pub reason: Reason,
}

// The run lengths of a plant, and whether an interval is in automatic mode for the point. The interval's number is no part of it: a status goes
// by the rule alone.
#[derive(Clone, Copy)]
pub struct Rule {
    pub small: Lengths,
    pub large: Lengths,
    pub automatic: bool,
}

impl Run {
    // The run with the mark of the interval of this number; the count stops at 255.
    #[tactic(auto, unfolding(crate::specs::Points::longer))]
    fn count_one(self, number: u32) -> Run
        ensures { result ≡ stored_run (longer number self) }
    {
        Run {
            count: self.count.saturating_add(1),
            first: if self.count == 0 { number } else { self.first },
        }
    }

    // To the mark of the interval of this number.
    fn span_to(self, number: u32) -> Span
        ensures { result ≡ span_to number self }
    {
        Span {
            first: self.first,
            last: number,
        }
    }
}

// The rules name these forms: `count`, `clear`, `declare` and `reinstate` take a record and hand the next one back.
impl Point {
    // No runs.
    pub fn clear(self) -> Point
        ensures { result ≡ cleared self }
    {
        Point {
            small: Run::default(),
            large: Run::default(),
            ..self
        }
    }

    // The runs with one mark more, in the interval of this number.
    #[tactic(auto, unfolding(crate::specs::Points::counted))]
    pub fn count(self, mark: Mark, number: u32) -> Point
        ensures { result ≡ counted mark number self }
    {
        match mark {
            Mark::Off | Mark::Clear => self.clear(),
            Mark::Blank | Mark::Doubt => self,
            Mark::Small => Point {
                small: self.small.count_one(number),
                large: Run::default(),
                ..self
            },
            Mark::Large => Point {
                small: self.small.count_one(number),
                large: self.large.count_one(number),
                ..self
            },
        }
    }

    // Non-Conforming at a level and for a reason, until it is reinstated.
    pub fn declare(self, level: i32, reason: Reason) -> Point
        ensures { result ≡ declared_at level reason }
    {
        Point {
            status: 4,
            level,
            reason,
            ..Point::default()
        }
    }

    pub fn reinstate(self) -> Point
        ensures { result ≡ normal }
    {
        Point::default()
    }

    // Whether a run is at its length or beyond.
    fn reaches(self, small: u8, large: u8) -> bool
        ensures { result ≡ reaches small large self.small.count self.large.count }
    {
        small <= self.small.count || large <= self.large.count
    }

    #[tactic(auto, unfolding(crate::specs::Points::status_of))]
    fn status_by(self, rule: Rule) -> u8
        ensures { result ≡ status_of rule self.small.count self.large.count }
    {
        if self.reaches(rule.small.pending, rule.large.pending) {
            return if rule.automatic { 3 } else { 2 };
        }
        if self.reaches(rule.small.not_responding, rule.large.not_responding) {
            return 2;
        }
        u8::from(1 <= self.small.count)
    }

    #[tactic(auto, unfolding(crate::specs::Points::graded))]
    fn grade(self, rule: Rule) -> Point
        ensures { result ≡ graded rule self }
    {
        Point {
            status: self.status_by(rule),
            level: 0,
            reason: Reason::ByOperator,
            ..self
        }
    }

    // Whether the mark just counted declares the point.
    #[tactic(auto, unfolding(crate::specs::Points::declares, crate::specs::Points::is_counted))]
    fn declares(self, rule: Rule, mark: Mark) -> bool
        ensures { result ≡ declares rule mark self.small.count self.large.count }
    {
        let counted = matches!(mark, Mark::Small | Mark::Large);
        counted && rule.automatic && self.reaches(rule.small.declaration, rule.large.declaration)
    }

    // Why the mark just counted declares the point: large goes before small.
    #[tactic(auto, unfolding(crate::specs::Points::reason_of))]
    fn reason_by(self, rule: Rule, number: u32) -> Reason
        ensures { result ≡ reason_of rule number self.small self.large }
    {
        if rule.large.declaration <= self.large.count {
            return Reason::ByLargeRun(self.large.span_to(number));
        }
        Reason::BySmallRun(self.small.span_to(number))
    }

    #[tactic(auto, unfolding(crate::specs::Points::settled))]
    fn settle(self, rule: Rule, number: u32, assessment: Assessment) -> Point
        ensures { result ≡ settled rule number assessment self }
    {
        if self.declares(rule, assessment.mark) {
            return self.declare(assessment.level, self.reason_by(rule, number));
        }
        self.grade(rule)
    }

    // The record after an accepted interval of this number: a declared point stays as it is.
    #[tactic(auto, unfolding(crate::specs::Points::marked_by))]
    pub fn mark(self, rule: Rule, number: u32, assessment: Assessment) -> Point
        ensures { result ≡ marked_by rule number assessment self }
    {
        if self.status == 4 {
            return self;
        }
        self.count(assessment.mark, number)
            .settle(rule, number, assessment)
    }
}

// ---- the report

// The 16 bytes of a point from `at` on.
#[tactic(auto, using(crate::proofs::Lengths16::parts))]
pub fn put_record(report: &mut [u8], at: usize, assessment: Assessment, point: Point)
    requires { at + 16 ≤ length report.old }
    ensures { report.new ≡ put_at report.old at (record_of assessment point) }
{
    let mark = u8::from(assessment.mark);
    let head = [point.status, mark, point.small.count, point.large.count];
    wire::put_four(report, at, head);
    wire::put_four(report, at + 4, assessment.error.to_le_bytes());
    wire::put_four(report, at + 8, assessment.trigger.to_le_bytes());
    wire::put_four(report, at + 12, point.level.to_le_bytes());
}
