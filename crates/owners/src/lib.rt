// The owners of the segments, each the number of the spline that made it: the room for segments that have one, and one number in adjacent cells.
#![tactic(auto)]

ghost use Rattle.std.specs.Prelude.{◌≡◌, ◌-◌, ◌≤◌, length, replicate};
ghost use Rattle.std.proofs.lemmas.List.Edits.{sets};
ghost use Rattle.owners.specs.Owners.{owned_room};

// How many segments have room: the least of the whole records in so many floats, of the cells for owners, and of 2^24. The definition owned_room of it
// stands in the contracts of crates above.
pub fn room(floats: usize, cells: usize) -> usize
    ensures { result ≡ owned_room floats cells }
{
    (floats / 8).min(cells).min(16777216)
}

// The spline k gets the segments from `from` up to, not including, `to`.
pub fn fill(owners: &mut [u64], from: usize, to: usize, k: usize)
    requires { (from ≤ to) × (to ≤ length owners.old) }
    ensures { owners.new ≡ sets owners.old from (replicate (to - from) k) }
{
    owners[from..to].fill(k as u64);
}
