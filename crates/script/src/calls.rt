// The calls: each is made in a state, and its answer put into a buffer. The words of an answer stand by cases, and in no `Display`: `text`
// says why. The state and the buffer go to each call as `runs` gives them, and a point as the calls of `monitor` take it: in a struct, the
// promises' `out.new` would be a part of its `exit` (`text::Writer` has such a field, and promises by `Writes`, which stays inside `text`).
// Words are any bytes, as a field's are. `declare`, `reinstate`, `look`, `reason` and `target` each make another call: one function would take
// the call as a closure, and what it answers as fields.
ghost use Rattle.std.specs.Prelude.{◌≡◌, ◌+◌, ◌≤◌, length, replicate};
ghost use Rattle.turns.specs.Steps.{Steps};
ghost use Rattle.operators.specs.Operators.{declare, reinstate, ask, look, reason, target};
ghost use Rattle.monitor.specs.Calls.{interval, operate};
ghost use Rattle.text.specs.Lines.{line};
ghost use Rattle.text.specs.Puts.{Put};
ghost use Rattle.text.specs.Fields.{texts, longest_line_of};
ghost use Rattle.script.specs.Texts.{accepted_text, reason_words, refused_by};
ghost use Rattle.script.specs.Steps.{answered, made_load, made_call};

use crate::room::Room;
use monitor::{CallRefusal, Monitor};
use points::Reason;
use text::Field::{self, I32, U8, U32, Words};
use turns::Turn;

// A call that is answered by a line, and the state after it.
fn answer(m: Monitor, fields: &[Field], out: &mut [u8; 8192]) -> Turn<Monitor>
    requires { longest_line_of fields.now ≤ 8192 }
    ensures { Steps (answered m (line (texts fields.now))) result out.old out.new }
{
    let length = text::put_line(out, 0, fields);
    Turn::continues(m, length)
}

// A refusal: these words, and its number. Each call gives a literal: a type for short words would be no plainer.
fn refuse(m: Monitor, words: &[u8], refusal: CallRefusal, out: &mut [u8; 8192]) -> Turn<Monitor>
    requires { length words.now ≤ 20 }
    ensures { Steps (answered m (refused_by words.now refusal)) result out.old out.new }
{
    answer(m, &[Words(words), U32(u32::from(refusal))], out)
}

#[tactic(auto, unfolding(crate::specs::Texts::load_text))]
pub(crate) fn load(m: Monitor, register: &[u8], out: &mut [u8; 8192]) -> Turn<Monitor>
    ensures { Steps (made_load m register.now) result out.old out.new }
{
    match monitor::load(register) {
        Ok(loaded) => answer(
            loaded.monitor,
            &[Words(b"load accepted"), U32(loaded.visits)],
            out,
        ),
        Err(refusal) => answer(m, &[Words(b"load refused"), U32(u32::from(refusal))], out),
    }
}

// The lines of an accepted interval, behind its first line.
fn put_accepted(out: &mut [u8; 8192], interval: u32, report: &[u8]) -> usize
    requires { length report.now ≤ 1280 }
    ensures { Put out.old 0 (accepted_text interval report.now) result out.new }
{
    let lines = text::put_line(out, 0, &[Words(b"interval accepted")]);
    text::put_report(out, lines, interval, report)
}

// An interval with a report buffer of zeros.
#[tactic(auto, unfolding(crate::specs::Texts::interval_text))]
pub(crate) fn interval(
    mut m: Monitor,
    buffer: &[u8],
    room: Room,
    out: &mut [u8; 8192],
) -> Turn<Monitor>
    ensures { Steps (made_call m (interval buffer.now (replicate room.bytes 0))) result out.old out.new }
{
    let mut report = [0; 4096];
    let report = &mut report[..room.bytes];
    match monitor::interval(&mut m, buffer, report) {
        Ok(()) => {
            let length = put_accepted(out, wire::word_at(buffer, 0), report);
            Turn::continues(m, length)
        }
        Err(refusal) => refuse(m, b"interval refused", refusal, out),
    }
}

#[tactic(auto, unfolding(crate::specs::Texts::declare_text))]
pub(crate) fn declare(mut m: Monitor, point: u32, level: i32, out: &mut [u8; 8192]) -> Turn<Monitor>
    ensures { Steps (made_call m (operate (declare level) point)) result out.old out.new }
{
    match monitor::declare(&mut m, point, level) {
        Ok(()) => answer(m, &[Words(b"declare accepted")], out),
        Err(refusal) => refuse(m, b"declare refused", refusal, out),
    }
}

#[tactic(auto, unfolding(crate::specs::Texts::reinstate_text))]
pub(crate) fn reinstate(mut m: Monitor, point: u32, out: &mut [u8; 8192]) -> Turn<Monitor>
    ensures { Steps (made_call m (operate reinstate point)) result out.old out.new }
{
    match monitor::reinstate(&mut m, point) {
        Ok(()) => answer(m, &[Words(b"reinstate accepted")], out),
        Err(refusal) => refuse(m, b"reinstate refused", refusal, out),
    }
}

#[tactic(auto, unfolding(crate::specs::Texts::look_text))]
pub(crate) fn look(m: Monitor, point: u32, out: &mut [u8; 8192]) -> Turn<Monitor>
    ensures { Steps (made_call m (operate (ask look) point)) result out.old out.new }
{
    match monitor::look(&m, point) {
        Ok(q) => answer(
            m,
            &[
                Words(b"look accepted"),
                U8(q.status),
                U8(q.small.count),
                U8(q.large.count),
                I32(q.level),
            ],
            out,
        ),
        Err(refusal) => refuse(m, b"look refused", refusal, out),
    }
}

fn reason_words(reason: Reason) -> &'static [u8]
    ensures words { result.now ≡ reason_words reason }
    ensures short { length result.now ≤ 24 }
{
    match reason {
        Reason::ByOperator => b"reason accepted operator",
        Reason::BySmallRun(_) => b"reason accepted small",
        Reason::ByLargeRun(_) => b"reason accepted large",
    }
}

#[tactic(auto, unfolding(crate::specs::Texts::reason_text))]
pub(crate) fn reason(m: Monitor, point: u32, out: &mut [u8; 8192]) -> Turn<Monitor>
    ensures { Steps (made_call m (operate (ask reason) point)) result out.old out.new }
{
    match monitor::reason(&m, point) {
        Ok(reason) => {
            let span = reason.span();
            answer(
                m,
                &[Words(reason_words(reason)), U32(span.first), U32(span.last)],
                out,
            )
        }
        Err(refusal) => refuse(m, b"reason refused", refusal, out),
    }
}

#[tactic(auto, unfolding(crate::specs::Texts::target_text, crate::specs::Texts::bit_of))]
pub(crate) fn target(m: Monitor, point: u32, out: &mut [u8; 8192]) -> Turn<Monitor>
    ensures { Steps (made_call m (operate (ask target) point)) result out.old out.new }
{
    match monitor::target(&m, point) {
        Ok(t) => answer(
            m,
            &[
                Words(b"target accepted"),
                I32(t.target),
                U32(t.raise),
                U32(t.lower),
                U8(u8::from(t.complete)),
            ],
            out,
        ),
        Err(refusal) => refuse(m, b"target refused", refusal, out),
    }
}
