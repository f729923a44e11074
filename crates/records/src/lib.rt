// Segments with their owners as a lent slice of records, over the flat core: filled by copying, read by number, and drawn one by one, for a desk or whatever is hidden.
#![tactic(auto)]

ghost use Rattle.std.specs.Prelude.{◌≡◌, ◌<◌, length, get_or};
ghost use Rattle.desks.specs.Desks.{sight_in};
ghost use Rattle.draw.specs.Draw.{three, leaves};
ghost use Rattle.records.specs.Records.{zero_record, records_of, draw_record_of, draw_number_of, judge_for, draw_for};

use alone::draw_alone;
use codes::{Code, Refusal};
use desks::Sight;
pub use flat_records::SegmentRecord;
use flat_records::{is_known, record_of, zero_record};

// ---- a record for a desk

// The checks of a record for a desk, in their order; the sight's one owner is the record's.
#[tactic(auto, unfolding(crate::specs::Records::judge_for))]
fn judge_for(known: bool, sight: &Sight<'_>, y: u32, spanned: bool) -> Result<(), Code>
    requires { 0 < length sight.now.owners.now }
    ensures { result ≡ judge_for known (sight_in sight.now) y spanned }
{
    if 2 <= sight.desk {
        return Err(Code::Desk);
    }
    if !known {
        return Err(Code::Table);
    }
    if sight.bits.len() < sight.splines as usize {
        return Err(Code::Trace);
    }
    if 8388608 <= y {
        return Err(Code::Row);
    }
    if !spanned {
        return Err(Code::Span);
    }
    if sight.splines <= sight.owners[0] {
        return Err(Code::Table);
    }
    Ok(())
}

// Draws a record for a desk, unless its ninth field names a spline that is hidden there; `known` says that there is such a record.
pub fn draw_for_desk(
    known: bool,
    whole: SegmentRecord,
    splines: u64,
    bits: &[u8],
    desk: u32,
    y: u32,
    x0: u32,
    n: u32,
    r0: &mut [f32],
    r1: &mut [f32],
    r2: &mut [f32],
) -> Result<u64, Refusal>
    ensures { leaves result (three r0.new r1.new r2.new)
        ≡ draw_for known whole splines bits.now desk y x0 n (three r0.old r1.old r2.old) }
{
    let owners = [whole.owner];
    let sight = Sight {
        owners: &owners,
        splines,
        bits,
        desk,
    };
    let spanned = checks::span_good(x0, n, r0.len(), r1.len(), r2.len());
    if let Err(code) = judge_for(known, &sight, y, spanned) {
        return Err((code, 0));
    }
    if desks::hidden(&sight, 0) {
        return Ok(0);
    }
    draw_alone(known, whole, y, x0, n, r0, r1, r2)
}

// ---- the slice of records

// The record at an index, or zeros past the end.
pub fn segment_at(records: &[SegmentRecord], i: usize) -> SegmentRecord
    ensures { result ≡ get_or records.now i zero_record }
{
    match records.get(i) {
        Some(record) => *record,
        None => zero_record(),
    }
}

// Every record is set: the first `count` to the segments of the flat slice with their owners, the others to zeros.
pub fn fill_records(flat: &[f32], owners: &[u64], count: usize, records: &mut [SegmentRecord])
    ensures { records.new ≡ records_of flat.now owners.now count (length records.old) }
{
    for i in 0..records.len() {
        records[i] = record_of(flat, owners, count, i);
    }
}

// Draws the record i on n pixels of row y, from column x0 on, into three channels that begin at column x0.
pub fn draw_record(
    records: &[SegmentRecord],
    i: usize,
    y: u32,
    x0: u32,
    n: u32,
    r0: &mut [f32],
    r1: &mut [f32],
    r2: &mut [f32],
) -> Result<u64, Refusal>
    ensures { leaves result (three r0.new r1.new r2.new)
        ≡ draw_record_of records.now i y x0 n (three r0.old r1.old r2.old) }
{
    let known = i < records.len();
    let whole = segment_at(records, i);
    draw_alone(known, whole, y, x0, n, r0, r1, r2)
}

// Draws the record i of 16 that a flat slice and owners fill.
fn draw_in_16(
    flat: &[f32],
    owners: &[u64],
    count: usize,
    i: usize,
    y: u32,
    x0: u32,
    n: u32,
    r0: &mut [f32],
    r1: &mut [f32],
    r2: &mut [f32],
) -> Result<u64, Refusal>
    ensures { leaves result (three r0.new r1.new r2.new)
        ≡ draw_record_of (records_of flat.now owners.now count 16) i y x0 n (three r0.old r1.old r2.old) }
{
    let zero = zero_record();
    let mut records = [zero; 16];
    fill_records(flat, owners, count, &mut records);
    draw_record(&records, i, y, x0, n, r0, r1, r2)
}

// ---- a segment of a flat slice, by its number

// Draws number i of `count` flat segments by way of records. There may be any number of segments: 16 records are filled, from the multiple of 16 on that is i or comes before it.
// A number that is not below the count, and every number of a count that the floats do not hold, is TABLE. Drawing reads no owner: those of the 16 are zeros.
pub fn draw_by_records(
    flat: &[f32],
    count: usize,
    i: usize,
    y: u32,
    x0: u32,
    n: u32,
    r0: &mut [f32],
    r1: &mut [f32],
    r2: &mut [f32],
) -> Result<u64, Refusal>
    ensures { leaves result (three r0.new r1.new r2.new)
        ≡ draw_number_of flat.now count i y x0 n (three r0.old r1.old r2.old) }
{
    if !is_known(flat, count, i) {
        return Err((Code::Table, 0));
    }
    let first = i / 16 * 16;
    let owners = [0u64; 16];
    draw_in_16(
        &flat[8 * first..],
        &owners,
        count - first,
        i - first,
        y,
        x0,
        n,
        r0,
        r1,
        r2,
    )
}
