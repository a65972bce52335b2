// Marks and levels of aggregates, from sums over their members (01, "Triggers and errors" and the list of marks under "Marks and runs"; 02,
// 2026-02).
#![tactic(auto)]

ghost use Rattle.std.specs.Prelude.{◌≡◌, ◌^◌, ◌<◌, nat_abs, IfSome};
ghost use Rattle.aggregates.specs.Aggregates.{is_load, add_signed, add_unreadable, no_sums, aggregate_basis, sums_assessment};
ghost use Rattle.aggregates.specs.Sizes.{SmallPresent, SmallKeptSums, SmallSums};
ghost use Rattle.aggregates.specs.Views.{readable_view, view_capability, flags_with, present_with, kept_with};
ghost use Rattle.aggregates.specs.Views.{add_readable_view, add_view, SmallView};

use kinds::Kind;
use marks::{Assessment, Basis, Kept, Mark, Measured};
use triggers::Capability;

// ---- a member

// The numbers of a load are subtracted, or go to sums of their own.
pub fn is_load(kind: Option<Kind>) -> bool
    ensures { result ≡ is_load kind }
{
    matches!(kind, Some(Kind::Load))
}

// A member whose line is readable, as its aggregate's sums take it, in whole kW: whether it is a load, its conformance mode is not 0, it can be
// assessed and its value is substituted; MWB, MW, MWO and both rates of this line; and the line kept before it.
#[derive(Clone, Copy)]
pub struct View {
    pub load: bool,
    pub monitored: bool,
    pub known: bool,
    pub doubtful: bool,
    pub target: i32,
    pub power: i32,
    pub availability: u32,
    pub up: u32,
    pub down: u32,
    pub kept: Option<Kept>,
}

#[tactic(auto, unfolding(marks::specs::Measures::measures_of, crate::specs::Views::readable_view))]
pub fn view_of(kind: Option<Kind>, line: Measured, kept: Option<Kept>) -> View
    ensures { result ≡ readable_view kind line.fields kept }
{
    let Measured { fields, measures } = line;
    let unit = measures.capability;
    // Rates by `as`, since each is at most a bid rate, a u32: `try_from` would have a case that cannot be.
    View {
        load: is_load(kind),
        monitored: fields.mode != 0,
        known: marks::is_known(fields, kept),
        doubtful: marks::is_doubtful(fields.power()),
        target: fields.target,
        power: measures.power,
        availability: fields.availability,
        up: unit.up as u32,
        down: unit.down as u32,
        kept,
    }
}

impl View {
    #[tactic(auto, unfolding(crate::specs::Views::view_capability))]
    fn capability(self) -> Capability
        ensures { result ≡ view_capability self }
    {
        let up = u64::from(self.up);
        let down = u64::from(self.down);
        Capability {
            availability: u64::from(self.availability),
            up,
            down,
            least: up.min(down),
        }
    }
}

// ---- sums

// Of the members so far: whether every line is readable, some conformance mode is not 0, every member can be assessed, and some
// value is substituted.
#[derive(Clone, Copy)]
pub struct Flags {
    pub readable: bool,
    pub monitored: bool,
    pub known: bool,
    pub doubtful: bool,
}

// Signed sums of this interval's MWB and MW.
#[derive(Clone, Copy, Default)]
pub struct Present {
    pub target: i64,
    pub power: i64,
}

// Sums over kept lines: signed MWB, and FCR and FCL, in 64 bits as a basis has them. `Target` of `targets` has the widths of a line, since a
// state holds it.
#[derive(Clone, Copy, Default)]
pub struct KeptSums {
    pub target: i64,
    pub raise: i64,
    pub lower: i64,
}

// An aggregate's members so far. `supply` is over generating and bidirectional units, `loads` over loads. No chain has a semi-scheduled unit.
#[derive(Clone, Copy)]
pub struct Sums {
    pub flags: Flags,
    pub present: Present,
    pub kept: KeptSums,
    pub supply: Capability,
    pub loads: Capability,
}

// A member's number on a sum: that of a load is subtracted.
#[tactic(auto, unfolding(crate::specs::Aggregates::add_signed))]
pub fn add_signed(load: bool, sum: i64, z: i32) -> i64
    requires { nat_abs sum < 2 ^ 60 }
    ensures { result ≡ add_signed load sum z }
{
    if load {
        sum - i64::from(z)
    } else {
        sum + i64::from(z)
    }
}

impl Flags {
    #[tactic(auto, unfolding(crate::specs::Views::flags_with))]
    fn plus(self, member: View) -> Flags
        ensures { result ≡ flags_with self member }
    {
        Flags {
            readable: self.readable,
            monitored: self.monitored || member.monitored,
            known: self.known && member.known,
            doubtful: self.doubtful || member.doubtful,
        }
    }
}

impl Present {
    #[tactic(auto, unfolding(crate::specs::Views::present_with))]
    fn plus(self, member: View) -> Present
        requires { SmallPresent (2 ^ 59) self }
        ensures { result ≡ present_with self member }
    {
        Present {
            target: add_signed(member.load, self.target, member.target),
            power: add_signed(member.load, self.power, member.power),
        }
    }
}

impl KeptSums {
    #[tactic(auto, unfolding(crate::specs::Views::kept_with, crate::specs::Aggregates::add_kept))]
    fn plus(self, member: View) -> KeptSums
        requires { SmallKeptSums (2 ^ 59) self }
        ensures { result ≡ kept_with self member }
    {
        let Some(kept) = member.kept else {
            return self;
        };
        KeptSums {
            target: add_signed(member.load, self.target, kept.target),
            raise: self.raise + i64::from(kept.raise),
            lower: self.lower + i64::from(kept.lower),
        }
    }
}

// Before the first member: no zeros alone, which a derive would give.
impl Default for Sums {
    ghost is_default = { λ sums. sums ≡ no_sums };

    fn default() -> Self {
        Sums {
            flags: Flags {
                readable: true,
                monitored: false,
                known: true,
                doubtful: false,
            },
            present: Present::default(),
            kept: KeptSums::default(),
            supply: Capability::default(),
            loads: Capability::default(),
        }
    }
}

impl Sums {
    #[tactic(auto, using(crate::proofs::Small::sizes), unfolding(crate::specs::Views::add_readable_view))]
    fn plus_readable(self, member: View) -> Sums
        requires { SmallSums (2 ^ 59) self × SmallView member }
        ensures { result ≡ add_readable_view self member }
    {
        let unit = member.capability();
        Sums {
            flags: self.flags.plus(member),
            present: self.present.plus(member),
            kept: self.kept.plus(member),
            supply: self.supply.plus(!member.load, unit),
            loads: self.loads.plus(member.load, unit),
        }
    }

    // One member more, which has a readable line or none. Of an unreadable one nothing is added.
    #[tactic(auto, unfolding(crate::specs::Views::add_view, crate::specs::Aggregates::add_unreadable))]
    pub fn plus(self, member: Option<View>) -> Sums
        requires { SmallSums (2 ^ 59) self × IfSome member (λ view. SmallView view) }
        ensures { result ≡ add_view self member }
    {
        match member {
            Some(view) => self.plus_readable(view),
            None => Sums {
                flags: Flags {
                    readable: false,
                    ..self.flags
                },
                ..self
            },
        }
    }

    #[tactic(auto, unfolding(crate::specs::Aggregates::aggregate_basis))]
    fn basis(self) -> Basis
        requires { SmallSums 130000000 self }
        ensures { result ≡ aggregate_basis self }
    {
        let Sums {
            flags,
            present,
            kept,
            supply,
            loads,
        } = self;
        let direction = triggers::direction_of(present.target, present.power);
        Basis {
            power: present.power,
            target: kept.target,
            up: kept.raise,
            down: kept.lower,
            availability: supply.availability.max(loads.availability),
            rate: supply.rate(direction).max(loads.rate(direction.turned())),
            doubtful: flags.doubtful,
            capped: false,
            unidirectional: false,
        }
    }

    // The assessment of the aggregate whose members these are.
    #[tactic(auto, using(crate::proofs::Small::sizes), unfolding(crate::specs::Aggregates::sums_assessment))]
    pub fn assess(self) -> Assessment
        requires { SmallSums 130000000 self }
        ensures { result ≡ sums_assessment self }
    {
        let flags = self.flags;
        if !flags.readable {
            return marks::unassessed(Mark::Blank);
        }
        if !flags.monitored {
            return marks::unassessed(Mark::Off);
        }
        if !flags.known {
            return marks::unassessed(Mark::Blank);
        }
        marks::judge(self.basis())
    }
}
