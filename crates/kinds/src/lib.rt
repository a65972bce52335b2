// The kinds of units, by their numbers in a register (01, "The register"; 02, 2026-01).
#![tactic(auto)]

ghost use Rattle.std.specs.Prelude.{◌≡◌};
ghost use Rattle.kinds.specs.Kinds.{kind_of, Decodes, kind_number, is_semi_scheduled};

// The rules' kinds 1, 2, 3 and 4.
#[derive(Clone, Copy, Debug, PartialEq, Eq)]
pub enum Kind {
    Generating,
    Load,
    Bidirectional,
    SemiScheduled,
}

// A number that is no kind's.
#[derive(Clone, Copy, Debug, PartialEq, Eq)]
pub struct UnknownKind(pub u8);

impl TryFrom<u8> for Kind {
    type Error = UnknownKind;

    ghost try_from_gives = { Decodes };

    #[tactic(auto, unfolding(crate::specs::Kinds::kind_of))]
    fn try_from(number: u8) -> Result<Self, UnknownKind> {
        match number {
            1 => Ok(Kind::Generating),
            2 => Ok(Kind::Load),
            3 => Ok(Kind::Bidirectional),
            4 => Ok(Kind::SemiScheduled),
            _ => Err(UnknownKind(number)),
        }
    }
}

impl From<Kind> for u8 {
    ghost from_gives = { λ kind number. number ≡ kind_number kind };

    #[tactic(auto, unfolding(crate::specs::Kinds::kind_number))]
    fn from(kind: Kind) -> u8 {
        match kind {
            Kind::Generating => 1,
            Kind::Load => 2,
            Kind::Bidirectional => 3,
            Kind::SemiScheduled => 4,
        }
    }
}

// The kind with a number, if it is listed. Beside `try_from`, since its callers want an `Option`: each keeps an unlisted number as no kind.
pub fn kind_of(number: u8) -> Option<Kind>
    ensures { result ≡ kind_of number }
{
    Kind::try_from(number).ok()
}

// Whether a unit is of kind 4.
pub fn is_semi_scheduled(kind: Option<Kind>) -> bool
    ensures { result ≡ is_semi_scheduled kind }
{
    matches!(kind, Some(Kind::SemiScheduled))
}
