// The lent buffers of a build: all six made zero, or what a table leaves unused.
#![tactic(auto)]

ghost use Rattle.std.specs.Prelude.{◌≡◌, ◌++◌, ◌-◌, ◌*◌, ◌≤◌, length, take, replicate};
ghost use Rattle.std.specs.Float.{binary32};
ghost use Rattle.std.specs.Float.Ieee.{of_bits};

use buffers::clear;

// The cells that a build works in.
fn wipe_working(path: &mut [f32], walk: &mut [f32])
    ensures path_after { path.new ≡ replicate (length path.old) (of_bits binary32 0) }
    ensures walk_after { walk.new ≡ replicate (length walk.old) (of_bits binary32 0) }
{
    clear(path);
    clear(walk);
}

// Every lent cell. Each buffer is written, so each is lent by itself: a call that is lent a slice in a field holds the whole struct.
pub fn wipe(
    path: &mut [f32],
    walk: &mut [f32],
    segments: &mut [f32],
    owners: &mut [u64],
    row_starts: &mut [u32],
    entries: &mut [u32],
)
    ensures path_after { path.new ≡ replicate (length path.old) (of_bits binary32 0) }
    ensures walk_after { walk.new ≡ replicate (length walk.old) (of_bits binary32 0) }
    ensures segments_after { segments.new ≡ replicate (length segments.old) (of_bits binary32 0) }
    ensures owners_after { owners.new ≡ replicate (length owners.old) 0 }
    ensures row_starts_after { row_starts.new ≡ replicate (length row_starts.old) 0 }
    ensures entries_after { entries.new ≡ replicate (length entries.old) 0 }
{
    wipe_working(path, walk);
    clear(segments);
    clear(owners);
    clear(row_starts);
    clear(entries);
}

// The working cells, and those of the segments and their owners behind the first `count`.
pub fn wipe_unused(
    count: usize,
    path: &mut [f32],
    walk: &mut [f32],
    segments: &mut [f32],
    owners: &mut [u64],
)
    requires { (8 * count ≤ length segments.old) × (count ≤ length owners.old) }
    ensures path_after { path.new ≡ replicate (length path.old) (of_bits binary32 0) }
    ensures walk_after { walk.new ≡ replicate (length walk.old) (of_bits binary32 0) }
    ensures segments_after { segments.new ≡ take (8 * count) segments.old ++ replicate (length segments.old - 8 * count) (of_bits binary32 0) }
    ensures owners_after { owners.new ≡ take count owners.old ++ replicate (length owners.old - count) 0 }
{
    wipe_working(path, walk);
    let used = 8 * count;
    clear(&mut segments[used..]);
    clear(&mut owners[count..]);
}
