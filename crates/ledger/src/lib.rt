// The ledger of one wholesale demand response unit (02, 2026-05; source 002, section 4.1): day after day it notes instances of
// non-conformance, and whether three of them declare the unit. The ledger is a plain value: it goes into a call and the next one comes
// back. After a refused call the ledger is the one that was given.
#![tactic(auto)]

mod nonconformance;

ghost use Rattle.std.specs.Prelude.{◌≡◌};
ghost use Rattle.ledger.specs.Days.{has_flag, conduct_of};
ghost use Rattle.ledger.specs.Ledgers.{entered, refusal_number, day_refusal, reinstate_refusal, enter_of, reinstate_of, Answered};
ghost use Rattle.ledger.specs.Promises.{Begins};

use calendar::{Date, Window};
use response::Day;

// An instance of non-conformance: the ordinal of the date three months later, and whether a conformant day has come since.
#[derive(Clone, Copy, Debug, PartialEq, Eq)]
pub struct Instance {
    pub end: u32,
    pub conformed: bool,
}

// The latest two since reinstatement. A third is held to the earlier of them, which is then needed no more.
#[derive(Clone, Copy, Debug, Default, PartialEq, Eq)]
pub struct Instances {
    pub earlier: Option<Instance>,
    pub latest: Option<Instance>,
}

// `latest` is the ordinal of the last accepted date. Any values make a ledger: no call asks anything of them.
#[derive(Clone, Copy, Debug, Default, PartialEq, Eq)]
pub struct Ledger {
    pub latest: Option<u32>,
    pub instances: Instances,
    pub declared: bool,
}

// What a day is to the ledger.
#[derive(Clone, Copy)]
pub(crate) enum Conduct {
    Undispatched,
    Conformant,
    Nonconformant,
}

// Why a call is refused: there is no such date, it is no later than the last accepted one, or the unit is not declared.
#[derive(Clone, Copy, Debug, PartialEq, Eq)]
pub enum LedgerRefusal {
    NoDate,
    NotLater,
    NotDeclared,
}

// The refusal's number in 02.
#[tactic(auto, unfolding(crate::specs::Ledgers::refusal_number))]
impl From<LedgerRefusal> for u32 {
    ghost from_gives = { λ refusal number. number ≡ refusal_number refusal };

    fn from(refusal: LedgerRefusal) -> u32 {
        match refusal {
            LedgerRefusal::NoDate => 33,
            LedgerRefusal::NotLater => 34,
            LedgerRefusal::NotDeclared => 35,
        }
    }
}

// No date, no instance, not declared. It is the default, which promises no more than its values: this promises what holds of every list of
// calls from it on.
pub fn new_ledger() -> Ledger
    ensures { Begins result }
{
    Ledger::default()
}

// ---- a day

fn has_flag(day: Day) -> bool
    ensures { result ≡ has_flag day }
{
    day.flag.is_some() || day.under > 0 || day.over > 0
}

#[tactic(auto, unfolding(crate::specs::Days::conduct_of))]
fn conduct_of(day: Day) -> Conduct
    ensures { result ≡ conduct_of day }
{
    if day.target == 0 {
        Conduct::Undispatched
    } else if has_flag(day) {
        Conduct::Nonconformant
    } else {
        Conduct::Conformant
    }
}

impl Ledger {
    // A day that is accepted.
    #[tactic(auto, unfolding(crate::specs::Ledgers::entered))]
    fn entered(self, window: Window, conduct: Conduct) -> Ledger
        ensures { result ≡ entered self window conduct }
    {
        let declares = conduct.is_instance() && self.instances.third_declares(window.start);
        Ledger {
            latest: Some(window.start),
            instances: self.instances.after(conduct, window.end),
            declared: self.declared || declares,
        }
    }
}

// The day of this date, by its result.
pub fn enter(ledger: Ledger, date: Date, day: Day) -> Result<Ledger, LedgerRefusal>
    ensures { Answered (enter_of ledger date day) (day_refusal ledger date) result }
{
    let Some(window) = calendar::window_of(date) else {
        return Err(LedgerRefusal::NoDate);
    };
    if ledger.latest.is_some_and(|latest| window.start <= latest) {
        return Err(LedgerRefusal::NotLater);
    }
    Ok(ledger.entered(window, conduct_of(day)))
}

// ---- reinstatement

pub fn reinstate(ledger: Ledger) -> Result<Ledger, LedgerRefusal>
    ensures { Answered (reinstate_of ledger) (reinstate_refusal ledger) result }
{
    if !ledger.declared {
        return Err(LedgerRefusal::NotDeclared);
    }
    Ok(Ledger {
        latest: ledger.latest,
        ..new_ledger()
    })
}
