// A step of the program (01, "The program"): the next state, whether the run goes on, and the text to write. The state, the interval and
// the buffer stay apart, as the run gives them: in a struct, a promise's `out.new` would be a part of its `exit` (`text::Writer` has
// such a field, and promises by `Writes`, which stays inside `text`).
#![tactic(auto)]

ghost use Rattle.std.specs.Prelude.{◌≡◌, length};
ghost use Rattle.turns.specs.Steps.{Steps};
ghost use Rattle.program.specs.Steps.{room_of, size_of, refused, start_of, step_of, taken_from};

use monitor::Monitor;
use text::Field;
use turns::Turn;

// Room for the text of any step.
pub const ROOM: usize = 8192;

// The bytes of an interval. No register has more than 64 units.
#[tactic(auto, unfolding(plants::specs::Rosters::no_roster))]
pub fn interval_size(m: Monitor) -> usize
    ensures { result ≡ size_of m }
{
    8 + 40 * m.roster.unwrap_or_default().units.min(64)
}

// The bytes of its report. No register has more than 16 aggregates.
#[tactic(auto, unfolding(plants::specs::Rosters::no_roster))]
pub fn report_size(m: &Monitor) -> usize
    ensures { result ≡ room_of m.now }
{
    let roster = m.roster.unwrap_or_default();
    16 * (roster.units.min(64) + roster.aggregates.min(16))
}

// A refusal, by its number.
fn refuse(m: Monitor, number: u32, out: &mut [u8; 8192]) -> Turn<Monitor>
    ensures { Steps (refused m number) result out.old out.new }
{
    let length = text::put_line(out, 0, &[Field::Words(b"refused"), Field::U32(number)]);
    Turn::ends(m, length)
}

// The register: one that is refused is all that is printed.
pub fn start(register: &[u8], out: &mut [u8; 8192]) -> Turn<Monitor>
    ensures { Steps (start_of register.now) result out.old out.new }
{
    match monitor::load(register) {
        Ok(loaded) => Turn::continues(loaded.monitor, 0),
        Err(refusal) => refuse(Monitor::begin(None), u32::from(refusal), out),
    }
}

// An interval whose report has its place.
fn take(mut m: Monitor, buffer: &[u8], report: &mut [u8], out: &mut [u8; 8192]) -> Turn<Monitor>
    requires { length report.old ≡ room_of m }
    ensures { Steps (taken_from m buffer.now report.old) result out.old out.new }
{
    match monitor::interval(&mut m, buffer, report) {
        Ok(()) => {
            let length = text::put_report(out, 0, wire::word_at(buffer, 0), report);
            Turn::continues(m, length)
        }
        Err(refusal) => refuse(m, u32::from(refusal), out),
    }
}

// The bytes that were read for an interval: none at the end of the file, and a last buffer that is short is passed on as it is.
pub fn step(m: Monitor, buffer: &[u8], out: &mut [u8; 8192]) -> Turn<Monitor>
    ensures { Steps (step_of m buffer.now) result out.old out.new }
{
    if buffer.is_empty() {
        return Turn::ends(m, 0);
    }
    let mut report = [0; 1280];
    let size = report_size(&m);
    take(m, buffer, &mut report[..size], out)
}
