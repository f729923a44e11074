// A trace file in which no fault was found, loaded into the fronts of lent buffers: its four parts, and what the header says of them. No number is tested here.
#![tactic(auto)]

ghost use Rattle.std.specs.Prelude.{◌≡◌, ℕ, Bool, [], map, ◌*◌, ◌≤◌, ◌<◌, length, get_or, Ok};
ghost use Rattle.list.specs.List.{Got};
ghost use Rattle.reader.specs.Read.{rooms_of};
ghost use Rattle.reader.specs.Rest.{ListLeft};
ghost use Rattle.little.specs.Little.{numbers_in};
ghost use Rattle.trace.specs.Read.{splines_in, points_in, misplaced, described_in};
ghost use Rattle.trace_load.specs.Steps.{start_in, Loadable, Loaded};

use little::{number_at, signed};
use read_steps::start_of;
use reader::Read;

// ---- a part of the file

// The numbers of a part, one to a cell, as what each stands for.
fn load_part<T: Copy, F: Fn(u32) -> T>(part: &[u8], out: &mut [T], stands: F)
    requires long { length part.now ≡ 4 * length out.old }
    requires callable { (i : ℕ) → i < length out.old → F.pre stands (get_or (numbers_in part.now) i 0) }
    ensures { (meant : ℕ → T) → ((u : ℕ) (r : T) → F.post stands u r → r ≡ meant u) → out.new ≡ map meant (numbers_in part.now) }
{
    for i in 0..out.len() {
        out[i] = stands(number_at(part, i));
    }
}

// A number that was judged, as a start.
fn start_in(number: u32) -> f32
    requires { misplaced number ≡ Bool.false }
    ensures { result ≡ start_in number }
{
    start_of(i64::from(signed(number)))
}

// ---- the whole file: its buffers stay a parameter each, since a call that is lent one out of a struct holds all of the struct

// The four parts of s splines and p points, behind a header of h numbers.
pub fn load_parts(
    bytes: &[u8],
    h: usize,
    s: usize,
    p: usize,
    counts: &mut [u32],
    starts: &mut [f32],
    deltas: &mut [i32],
    coefficients: &mut [i32],
)
    requires { Loadable bytes.now h s p (rooms_of counts.old starts.old deltas.old coefficients.old) }
    ensures { Loaded (numbers_in bytes.now) h s p counts.old counts.new starts.old starts.new deltas.old deltas.new coefficients.old coefficients.new }
{
    let starts_from = h + s;
    let deltas_from = h + 3 * s;
    let coefficients_from = h + (3 * s + 2 * p);
    load_part(
        &bytes[4 * h..4 * starts_from],
        &mut counts[..s],
        |number| number,
    );
    load_part(
        &bytes[4 * starts_from..4 * deltas_from],
        &mut starts[..2 * s],
        start_in,
    );
    load_part(
        &bytes[4 * deltas_from..4 * coefficients_from],
        &mut deltas[..2 * p],
        signed,
    );
    load_part(
        &bytes[4 * coefficients_from..],
        &mut coefficients[..128 * s],
        signed,
    );
}

// A file in which no fault was found behind a header of h numbers, with room for it.
pub fn load(
    bytes: &[u8],
    h: usize,
    counts: &mut [u32],
    starts: &mut [f32],
    deltas: &mut [i32],
    coefficients: &mut [i32],
) -> Read
    requires { (8 ≤ h) × Loadable bytes.now h (splines_in (numbers_in bytes.now)) (points_in (numbers_in bytes.now)) (rooms_of counts.old starts.old deltas.old coefficients.old) }
    ensures { ListLeft (Got.got (described_in h (numbers_in bytes.now)) []) (Ok result) counts.old counts.new starts.old starts.new deltas.old deltas.new coefficients.old coefficients.new }
{
    let s = number_at(bytes, 1);
    let p = number_at(bytes, 2);
    let adjustment = signed(number_at(bytes, 3));
    load_parts(
        bytes,
        h,
        s as usize,
        p as usize,
        counts,
        starts,
        deltas,
        coefficients,
    );
    Read {
        splines: s,
        points: p,
        adjustment,
    }
}
