// A list of calls on a ledger in a file (02, 2026-05), step by step: a call is read, made and answered in text. The format stands in
// `specs/Items.antt`.
#![tactic(auto)]

mod reading;
mod texts;

ghost use Rattle.std.specs.Prelude.{◌≡◌, ◌≤◌, ℕ, length};
ghost use Rattle.turns.specs.Steps.{Steps};
ghost use Rattle.text.specs.Lines.{numbered_of};
ghost use Rattle.response.specs.Answers.{file_answer};
ghost use Rattle.ledger_script.specs.Items.{item_by};
ghost use Rattle.ledger_script.specs.Steps.{unread, goes_on, made_day, made_file, made_reinstate, made_by, step_of};

use calendar::Date;
use ledger::Ledger;
use reading::Call;
use response::Day;
use turns::Turn;

// Room for the text of any step.
pub const ROOM: usize = 128;

// A call that cannot be read, whose tag is at this byte. It stands beside that of `script`, which says why.
fn unreadable(state: Ledger, at: u64, out: &mut [u8; 128]) -> Turn<Ledger>
    ensures { Steps (unread state at) result out.old out.new }
{
    Turn::ends(state, texts::put_numbered(out, b"script error at byte", at))
}

// A refusal: these words, and its number. Each call gives a literal: a type for short words would be no plainer.
fn refuse(state: Ledger, words: &[u8], number: u32, out: &mut [u8; 128]) -> Turn<Ledger>
    requires { length words.now ≤ 20 }
    ensures { Steps (goes_on state (numbered_of words.now number)) result out.old out.new }
{
    Turn::continues(state, texts::put_numbered(out, words, u64::from(number)))
}

// A day that was assessed.
fn enter(state: Ledger, date: Date, day: Day, out: &mut [u8; 128]) -> Turn<Ledger>
    ensures { Steps (made_day state date day) result out.old out.new }
{
    match ledger::enter(state, date, day) {
        Ok(next) => Turn::continues(next, texts::put_accepted(out, day, next.declared)),
        Err(refusal) => refuse(state, b"day refused", u32::from(refusal), out),
    }
}

// A day by the bytes of its file.
fn enter_file(state: Ledger, date: Date, file: &[u8], out: &mut [u8; 128]) -> Turn<Ledger>
    ensures { Steps (made_file state date (file_answer file.now)) result out.old out.new }
{
    match response::assess_file(file) {
        Ok(day) => enter(state, date, day, out),
        Err(refusal) => refuse(state, b"day refused", u32::from(refusal), out),
    }
}

fn reinstate(state: Ledger, out: &mut [u8; 128]) -> Turn<Ledger>
    ensures { Steps (made_reinstate state) result out.old out.new }
{
    match ledger::reinstate(state) {
        Ok(next) => Turn::continues(next, texts::put_reinstated(out)),
        Err(refusal) => refuse(state, b"reinstate refused", u32::from(refusal), out),
    }
}

// The state and the buffer go to each call as `runs` gives them: in a struct, the promise's `out.new` would be a part of its `exit`.
// `text::Writer` has such a field, and promises by `Writes`, which stays inside `text`.
fn make(state: Ledger, call: Call, out: &mut [u8; 128]) -> Turn<Ledger>
    ensures { (at : ℕ) → Steps (made_by state at (item_by call.entry)) result out.old out.new }
{
    match call {
        Call::Day { date, file } => enter_file(state, date, file, out),
        Call::Reinstate => reinstate(state, out),
    }
}

// The bytes that were read for a call, whose tag is at byte `at` of the file: none at its end. One function for this and that of `script`
// would take three, to read a call, to make it, and to end at one that cannot be read.
pub fn step(state: Ledger, at: u64, call: &[u8], out: &mut [u8; 128]) -> Turn<Ledger>
    ensures { Steps (step_of state at call.now) result out.old out.new }
{
    if call.is_empty() {
        return Turn::ends(state, 0);
    }
    match reading::read(call) {
        Some(call) => make(state, call, out),
        None => unreadable(state, at, out),
    }
}
