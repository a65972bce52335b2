// A list of calls in a file, step by step: a call is read, made and answered in text. The format stands in `specs/Items.antt`.
#![tactic(auto)]

mod calls;
mod reading;
mod room;

ghost use Rattle.std.specs.Prelude.{ℕ};
ghost use Rattle.turns.specs.Steps.{Steps};
ghost use Rattle.script.specs.Items.{item_by};
ghost use Rattle.script.specs.Steps.{unread, made_by, step_of};

use monitor::Monitor;
use reading::Call;
use text::Field;
use turns::Turn;

// A call that cannot be read, whose tag is at this byte. The room differs from that of `ledger_script`, and so does the state: one function
// for both would take the size and the state as parameters, for one line.
fn unreadable(m: Monitor, at: u64, out: &mut [u8; 8192]) -> Turn<Monitor>
    ensures { Steps (unread m at) result out.old out.new }
{
    let length = text::put_line(
        out,
        0,
        &[Field::Words(b"script error at byte"), Field::U64(at)],
    );
    Turn::ends(m, length)
}

fn make(m: Monitor, call: Call, out: &mut [u8; 8192]) -> Turn<Monitor>
    ensures { (at : ℕ) → Steps (made_by m at (item_by call.entry)) result out.old out.new }
{
    match call {
        Call::Load(register) => calls::load(m, register, out),
        Call::Interval { room, buffer } => calls::interval(m, buffer, room, out),
        Call::Declare { point, level } => calls::declare(m, point, level, out),
        Call::Reinstate(point) => calls::reinstate(m, point, out),
        Call::Look(point) => calls::look(m, point, out),
        Call::Reason(point) => calls::reason(m, point, out),
        Call::Target(point) => calls::target(m, point, out),
    }
}

// The bytes that were read for a call, whose tag is at byte `at` of the file: none at its end. One function for this and that of
// `ledger_script` would take three, to read a call, to make it, and to end at one that cannot be read.
pub fn step(m: Monitor, at: u64, call: &[u8], out: &mut [u8; 8192]) -> Turn<Monitor>
    ensures { Steps (step_of m at call.now) result out.old out.new }
{
    if call.is_empty() {
        return Turn::ends(m, 0);
    }
    match reading::read(call) {
        Some(call) => make(m, call, out),
        None => unreadable(m, at, out),
    }
}
