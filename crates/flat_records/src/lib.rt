// A segment of a flat slice with its owner as a record, by its number, and whether a number is known.
#![tactic(auto)]

ghost use Rattle.std.specs.Prelude.{◌≡◌};
ghost use Rattle.flat_records.specs.Records.{joined_of, without_owner, zero_record, record_of, is_known};

use segments::Segment;

// A segment, and the number of the spline that made it.
#[derive(Clone, Copy, Debug, PartialEq)]
pub struct SegmentRecord {
    pub center_x: f32,
    pub center_y: f32,
    pub maximum_distance: f32,
    pub inv_sigma: f32,
    pub sigma_over_4_times_intensity: f32,
    pub color0: f32,
    pub color1: f32,
    pub color2: f32,
    pub owner: u64,
}

// The segment of a record.
impl From<SegmentRecord> for Segment {
    ghost from_gives = { λ r s. s ≡ without_owner r };

    fn from(record: SegmentRecord) -> Segment {
        Segment {
            center_x: record.center_x,
            center_y: record.center_y,
            maximum_distance: record.maximum_distance,
            inv_sigma: record.inv_sigma,
            sigma_over_4_times_intensity: record.sigma_over_4_times_intensity,
            color0: record.color0,
            color1: record.color1,
            color2: record.color2,
        }
    }
}

// A segment and its owner as a record.
fn joined(segment: Segment, owner: u64) -> SegmentRecord
    ensures { result ≡ joined_of segment owner }
{
    SegmentRecord {
        center_x: segment.center_x,
        center_y: segment.center_y,
        maximum_distance: segment.maximum_distance,
        inv_sigma: segment.inv_sigma,
        sigma_over_4_times_intensity: segment.sigma_over_4_times_intensity,
        color0: segment.color0,
        color1: segment.color1,
        color2: segment.color2,
        owner,
    }
}

// The record of zeros.
#[tactic(auto, unfolding(crate::specs::Records::zero_record))]
pub fn zero_record() -> SegmentRecord
    ensures { result ≡ zero_record }
{
    SegmentRecord {
        center_x: 0.0,
        center_y: 0.0,
        maximum_distance: 0.0,
        inv_sigma: 0.0,
        sigma_over_4_times_intensity: 0.0,
        color0: 0.0,
        color1: 0.0,
        color2: 0.0,
        owner: 0,
    }
}

// Record k of the first `count` segments of a flat slice with their owners, or zeros.
#[tactic(auto, unfolding(crate::specs::Records::record_of))]
pub fn record_of(flat: &[f32], owners: &[u64], count: usize, k: usize) -> SegmentRecord
    ensures { result ≡ record_of flat.now owners.now count k }
{
    if k < count && k < flat.len() / 8 && k < owners.len() {
        joined(Segment::at(flat, k), owners[k])
    } else {
        zero_record()
    }
}

// Whether a number is below the count, and the count fits the floats.
#[tactic(auto, unfolding(crate::specs::Records::is_known))]
pub fn is_known(flat: &[f32], count: usize, i: usize) -> bool
    ensures { result ≡ is_known flat.now count i }
{
    i < count && count <= flat.len() / 8
}
