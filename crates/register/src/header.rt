// The header: counts, length, run lengths.
ghost use Rattle.std.specs.Prelude.{◌≡◌, ◌+◌, ◌≤◌, ◌<◌, ◌++◌};
ghost use Rattle.register.specs.Fields.{unit_count, aggregate_count, lengths_at};
ghost use Rattle.plants.specs.Rosters.{counts_in};
ghost use Rattle.register.specs.Rules.{whole_length, rising};
ghost use Rattle.register.specs.Registers.{lengths_rise};

use plants::Lengths;

pub(crate) fn unit_count(header: &[u8; 16]) -> usize
    ensures { (result ≡ unit_count header.now) × (result < 256) }
{
    usize::from(header[0])
}

pub(crate) fn aggregate_count(header: &[u8; 16]) -> usize
    ensures { (result ≡ aggregate_count header.now) × (result < 256) }
{
    usize::from(header[1])
}

pub(crate) fn counts_known(header: &[u8; 16]) -> bool
    ensures { result ≡ counts_in (unit_count header.now) (aggregate_count header.now) }
{
    plants::counts_in(unit_count(header), aggregate_count(header))
}

// Whether as many bytes of records follow as the header says.
pub(crate) fn is_whole(header: &[u8; 16], records: &[u8]) -> bool
    ensures { result ≡ whole_length (header.now ++ records.now) }
{
    records.len() == 4 * unit_count(header) + 4 * aggregate_count(header)
}

fn rises(l: Lengths) -> bool
    ensures { result ≡ rising l }
{
    2 <= l.not_responding && l.not_responding < l.pending && l.pending < l.declaration
}

pub(crate) fn lengths_at(header: &[u8; 16], at: usize) -> Lengths
    requires { at ≤ 13 }
    ensures { result ≡ lengths_at header.now at }
{
    Lengths {
        not_responding: header[at],
        pending: header[at + 1],
        declaration: header[at + 2],
    }
}

#[tactic(auto, unfolding(crate::specs::Registers::lengths_rise))]
pub(crate) fn lengths_rise(header: &[u8; 16]) -> bool
    ensures { result ≡ lengths_rise header.now }
{
    rises(lengths_at(header, 2)) && rises(lengths_at(header, 5))
}
