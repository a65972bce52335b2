// Calls as their bytes say.
ghost use Rattle.std.specs.Prelude.{◌≡◌, ◌≤◌, length};
ghost use Rattle.ledger_script.specs.Items.{date_of, day_item, payload_item, item_of, item_read};

use calendar::Date;

// A day by its date and the bytes of its file, or a reinstatement.
#[derive(Clone, Copy)]
pub(crate) enum Call<'a> {
    Day { date: Date, file: &'a [u8] },
    Reinstate,
}

fn date_of(payload: &[u8]) -> Date
    requires { 12 ≤ length payload.now }
    ensures { result ≡ date_of payload.now }
{
    Date {
        year: wire::word_at(payload, 0),
        month: wire::word_at(payload, 4),
        day: wire::word_at(payload, 8),
    }
}

#[tactic(auto, unfolding(crate::specs::Items::day_item))]
fn read_day(payload: &[u8]) -> Option<Call<'_>>
    ensures { item_read result ≡ day_item payload.now }
{
    if payload.len() < 12 {
        return None;
    }
    Some(Call::Day {
        date: date_of(payload),
        file: &payload[12..],
    })
}

// An enum of the tags would list the calls of `Call` again.
#[tactic(auto, unfolding(crate::specs::Items::payload_item))]
fn read_payload(tag: u32, payload: &[u8]) -> Option<Call<'_>>
    ensures { item_read result ≡ payload_item tag payload.now }
{
    match tag {
        1 => read_day(payload),
        2 if payload.is_empty() => Some(Call::Reinstate),
        _ => None,
    }
}

// A call by all of its bytes, where they are one. What the two lists of calls share of this is `frames::parts`.
#[tactic(auto, unfolding(crate::specs::Items::item_of))]
pub(crate) fn read(bytes: &[u8]) -> Option<Call<'_>>
    ensures { item_read result ≡ item_of bytes.now }
{
    let (tag, payload) = frames::parts(bytes)?;
    read_payload(tag, payload)
}
