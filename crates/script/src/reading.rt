// Calls as their bytes say.
ghost use Rattle.std.specs.Prelude.{◌≡◌, eqb, length};
ghost use Rattle.wire.specs.Fields.{word_at};
ghost use Rattle.script.specs.Items.{item_of, payload_item, interval_item, declare_item, point_item, when, item_read};

use crate::room::Room;

// The calls of a point stand by themselves: as one variant they would take an enum and a match more.
#[derive(Clone, Copy)]
pub(crate) enum Call<'a> {
    Load(&'a [u8]),
    Interval { room: Room, buffer: &'a [u8] },
    Declare { point: u32, level: i32 },
    Reinstate(u32),
    Look(u32),
    Reason(u32),
    Target(u32),
}

#[tactic(auto, unfolding(crate::specs::Items::interval_item))]
fn read_interval(payload: &[u8]) -> Option<Call<'_>>
    ensures { item_read result ≡ interval_item payload.now }
{
    if payload.len() < 4 {
        return None;
    }
    // A cast, since std has no `From` of a `u32` for `usize`, and `try_from` would bring an error that cannot be.
    let room = wire::word_at(payload, 0) as usize;
    if 4096 < room {
        return None;
    }
    Some(Call::Interval {
        room: Room { bytes: room },
        buffer: &payload[4..],
    })
}

#[tactic(auto, unfolding(crate::specs::Items::declare_item))]
fn read_declare(payload: &[u8]) -> Option<Call<'_>>
    ensures { item_read result ≡ declare_item payload.now }
{
    if payload.len() != 8 {
        return None;
    }
    Some(Call::Declare {
        point: wire::word_at(payload, 0),
        level: wire::whole_at(payload, 4),
    })
}

// The calls that take a point alone. An enum of the tags would list the calls of `Call` again.
#[tactic(auto, unfolding(crate::specs::Items::point_item))]
fn read_point(tag: u32, payload: &[u8]) -> Option<Call<'_>>
    ensures { item_read result ≡ when (eqb (length payload.now) 4) (point_item tag (word_at payload.now 0)) }
{
    if payload.len() != 4 {
        return None;
    }
    let point = wire::word_at(payload, 0);
    match tag {
        4 => Some(Call::Reinstate(point)),
        5 => Some(Call::Look(point)),
        6 => Some(Call::Reason(point)),
        7 => Some(Call::Target(point)),
        _ => None,
    }
}

// As in `read_point`, no enum of the tags: it would list the calls of `Call` again.
#[tactic(auto, unfolding(crate::specs::Items::payload_item, crate::specs::Items::operator_item))]
fn read_payload(tag: u32, payload: &[u8]) -> Option<Call<'_>>
    ensures { item_read result ≡ payload_item tag payload.now }
{
    match tag {
        1 => Some(Call::Load(payload)),
        2 => read_interval(payload),
        3 => read_declare(payload),
        _ => read_point(tag, payload),
    }
}

// A call by all of its bytes, where they are one. What the two lists of calls share of this is `frames::parts`.
#[tactic(auto, unfolding(crate::specs::Items::item_of))]
pub(crate) fn read(bytes: &[u8]) -> Option<Call<'_>>
    ensures { item_read result ≡ item_of bytes.now }
{
    let (tag, payload) = frames::parts(bytes)?;
    read_payload(tag, payload)
}
