// Calls of a list in a file, whatever they are: the format stands in `specs/Frames.antt`.
#![tactic(auto, unfolding(crate::specs::Frames::wanted_by, crate::specs::Frames::is_frame))]

ghost use Rattle.std.specs.Prelude.{◌≡◌, ◌≤◌, ◌↔◌, true, false, length, drop, MatchOption, IsSome};
ghost use Rattle.wire.specs.Fields.{word_at};
ghost use Rattle.frames.specs.Frames.{wanted_by, is_frame};

const LONGEST_PAYLOAD: u32 = 8192;

// Room for the longest call.
pub const ROOM: usize = 8200;

// How many bytes of payload are to be read after the first 8, which are `head`.
pub fn wanted(head: &[u8]) -> usize
    ensures size { result ≡ wanted_by head.now }
    ensures small { result ≤ 8192 }
{
    if head.len() != 8 {
        return 0;
    }
    let size = wire::word_at(head, 4);
    if size <= LONGEST_PAYLOAD {
        // std has no `From<u32>` for usize, and `try_from` would have a case that cannot be.
        size as usize
    } else {
        0
    }
}

// Whether the bytes that were read are a call.
pub fn is_frame(bytes: &[u8]) -> bool
    ensures { result ≡ is_frame bytes.now }
{
    if bytes.len() < 8 {
        return false;
    }
    let size = wire::word_at(bytes, 4);
    // `as` for the reason that stands in `wanted`.
    size <= LONGEST_PAYLOAD && bytes.len() == 8 + size as usize
}

// The tag and the payload of a call.
#[tactic(auto)]
pub fn parts(bytes: &[u8]) -> Option<(u32, &[u8])>
    ensures cases { MatchOption result (is_frame bytes.now ≡ false) (λ p. (p.0 ≡ word_at bytes.now 0) × (p.1.now ≡ drop 8 bytes.now)) }
    ensures variant { IsSome result ↔ (is_frame bytes.now ≡ true) }
{
    if !is_frame(bytes) {
        return None;
    }
    Some((wire::word_at(bytes, 0), &bytes[8..]))
}
