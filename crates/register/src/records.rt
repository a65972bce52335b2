// The records of units and of heads, 4 bytes each.
ghost use Rattle.std.specs.Prelude.{◌≡◌, ◌&&◌, ◌-◌, ◌≤◌, ◌<◌, [], length, take, drop, replicate, get_or, cond, ltb, eqb, None};
ghost use Rattle.std.specs.List.{list_all};
ghost use Rattle.trace.specs.Sweeps.{sweep};
ghost use Rattle.kinds.specs.Kinds.{kind_of};
ghost use Rattle.plants.specs.Rosters.{kinds_known, regions_known};
ghost use Rattle.register.specs.Fields.{unit_count, aggregate_count, fields_of};
ghost use Rattle.register.specs.Rules.{header_spare, units_spare, heads_spare};
ghost use Rattle.register.specs.Headers.{Headed, records_in, is_zero};

use crate::header;
use chains::Chains;
use kinds::Kind;
use std::array;

// The kind of unit i, and none past the last unit.
fn kind(units: &[[u8; 4]], i: usize) -> Option<Kind>
    ensures { result ≡ cond (ltb i (length units.now)) (kind_of (get_or (get_or units.now i []) 0 0)) None }
{
    let record = units.get(i)?;
    kinds::kind_of(record[0])
}

fn kinds(units: &[[u8; 4]]) -> [Option<Kind>; 64]
    requires { length units.now ≤ 64 }
    ensures { result ≡ sweep (λ i. kind_of (get_or (get_or units.now i []) 0 0)) (length units.now) (replicate 64 None) }
{
    array::from_fn(|i| kind(units, i))
}

// One byte of record i, and 0 past the last record.
fn field(records: &[[u8; 4]], i: usize, at: usize) -> u8
    requires { at < 4 }
    ensures { result ≡ cond (ltb i (length records.now)) (get_or (get_or records.now i []) at 0) 0 }
{
    records.get(i).map_or(0, |record| record[at])
}

// That byte of each record.
fn fields<const N: usize>(records: &[[u8; 4]], at: usize) -> [u8; N]
    requires { (at < 4) × (length records.now ≤ N) }
    ensures { result ≡ sweep (λ i. get_or (get_or records.now i []) at 0) (length records.now) (replicate N 0) }
{
    array::from_fn(|i| field(records, i, at))
}

fn zeros(bytes: &[u8]) -> bool
    ensures { result ≡ list_all is_zero bytes.now }
{
    bytes.iter().all(|byte| *byte == 0)
}

// The spare bytes of each record: those from `at` on.
fn spares(records: &[[u8; 4]], at: usize) -> bool
    requires { at ≤ 4 }
    ensures { result ≡ list_all (λ r. list_all is_zero (take (4 - at) (drop at r))) records.now }
{
    records.iter().all(|record| zeros(&record[at..]))
}

// A register that has passed 1 and 2: the header, and as many records as it says, those of units first.
#[derive(Drop)]
pub(crate) struct Register<'a> {
    pub header: &'a [u8; 16],
    pub records: &'a [u8],
    ghost headed: { Headed header.now records.now },
}

impl<'a> Register<'a> {
    ghost use Rattle.register.specs.Records.{bytes_of};

    // The records of units, and those of heads.
    fn units_and_heads(&self) -> (&'a [[u8; 4]], &'a [[u8; 4]])
        ensures units { (result.0.now ≡ take (unit_count self.now.header.now) (records_in self.now.records.now))
            × (length result.0.now ≡ unit_count self.now.header.now) }
        ensures heads { (result.1.now ≡ drop (unit_count self.now.header.now) (records_in self.now.records.now))
            × (length result.1.now ≡ aggregate_count self.now.header.now) }
    {
        let units = header::unit_count(self.header);
        self.records.as_chunks::<4>().0.split_at(units)
    }

    pub(crate) fn read_fields(&self) -> Chains
        ensures { result ≡ fields_of (bytes_of self.now) }
    {
        let (units, heads) = self.units_and_heads();
        Chains {
            units: units.len(),
            aggregates: heads.len(),
            small: header::lengths_at(self.header, 2),
            large: header::lengths_at(self.header, 5),
            kinds: kinds(units),
            regions: fields(units, 2),
            next: fields(units, 1),
            heads: fields(heads, 0),
        }
    }

    // Every spare byte is 0, and every kind and region is known. Both are those of `read_fields`, which are read once.
    pub(crate) fn fields_known(&self, kinds: [Option<Kind>; 64], regions: [u8; 64]) -> bool
        ensures { let bytes = bytes_of self.now in
            let units = unit_count self.now.header.now in
            result ≡ (header_spare bytes && kinds_known kinds units && regions_known regions units && units_spare bytes && heads_spare bytes) }
    {
        let header = self.header;
        let (units, heads) = self.units_and_heads();
        zeros(&header[8..])
            && plants::known_kinds(&kinds, units.len())
            && plants::known_regions(&regions, units.len())
            && spares(units, 3)
            && spares(heads, 1)
    }
}
