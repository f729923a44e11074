// The numbers of a trace file, put into lent bytes: a part of it, the header, and what follows it. What was judged before is asked for: no number is tested here.
// `from` is the number of the file at which a part begins.
#![tactic(auto)]

ghost use Rattle.std.specs.Prelude.{◌≡◌, Bool, [], map, ◌+◌, ◌*◌, ◌≤◌, ◌<◌, ◌^◌, length};
ghost use Rattle.std.proofs.lemmas.List.Edits.{sets};
ghost use Rattle.codes.specs.declared.Code.{Code};
ghost use Rattle.shape.specs.Description.{description_in};
ghost use Rattle.writer.specs.Write.{first_fault};
ghost use Rattle.write_judge.specs.Verdict.{Fine};
ghost use Rattle.little.specs.Little.{bytes_of, unsigned_of};
ghost use Rattle.trace.specs.Trace.{layout_of, header_of, number_checks};
ghost use Rattle.trace.specs.Write.{misfit};
ghost use Rattle.trace_put.specs.Steps.{start_number, parts_in, Puttable};

use little::{put_number, unsigned};
use shape::Description;

// ---- a part of the file: three loops, each a line; one over all would be generic over the number, with a conversion that is lent, and the three functions, which others call, would stay as its callers

// Numbers as they are.
pub fn put_numbers(numbers: &[u32], bytes: &mut [u8], from: usize)
    requires { 4 * (from + length numbers.now) ≤ length bytes.old }
    ensures { bytes.new ≡ sets bytes.old (4 * from) (bytes_of numbers.now) }
{
    for (i, &number) in numbers.iter().enumerate() {
        put_number(bytes, from + i, number);
    }
}

// Signed numbers.
pub fn put_signed(numbers: &[i32], bytes: &mut [u8], from: usize)
    requires { 4 * (from + length numbers.now) ≤ length bytes.old }
    ensures { bytes.new ≡ sets bytes.old (4 * from) (bytes_of (map unsigned_of numbers.now)) }
{
    for (i, &number) in numbers.iter().enumerate() {
        put_number(bytes, from + i, unsigned(number));
    }
}

// A start that was judged, as the number that stands for it.
fn start_number(x: f32) -> u32
    requires { misfit x ≡ Bool.false }
    ensures { result ≡ start_number x }
{
    unsigned(x as i32)
}

// Starts.
pub fn put_starts(starts: &[f32], bytes: &mut [u8], from: usize)
    requires { (4 * (from + length starts.now) ≤ length bytes.old) × (first_fault (number_checks misfit Code.Coord from starts.now) ≡ Fine) }
    ensures { bytes.new ≡ sets bytes.old (4 * from) (bytes_of (map start_number starts.now)) }
{
    for (i, &x) in starts.iter().enumerate() {
        put_number(bytes, from + i, start_number(x));
    }
}

// ---- the whole file

// The first eight numbers of a header of h numbers, for s splines and p points.
pub fn put_header(bytes: &mut [u8], version: u32, h: u32, s: u32, p: u32, adjustment: i32)
    requires { (32 ≤ length bytes.old) × (4 * (h + (3 * s + 2 * p)) < 2 ^ 32) }
    ensures { bytes.new ≡ sets bytes.old 0 (bytes_of (header_of (layout_of version h) [] s p adjustment)) }
{
    let starts = 4 * (h + s);
    let deltas = 4 * (h + 3 * s);
    let coefficients = 4 * (h + (3 * s + 2 * p));
    let header = [
        version,
        s,
        p,
        unsigned(adjustment),
        4 * h,
        starts,
        deltas,
        coefficients,
    ];
    put_numbers(&header, bytes, 0);
}

// What follows a header of h numbers.
pub fn put_parts(description: &Description<'_>, h: usize, bytes: &mut [u8])
    requires { Puttable h (description_in description.now) (length bytes.old) }
    ensures { bytes.new ≡ sets bytes.old (4 * h) (bytes_of (parts_in (description_in description.now))) }
{
    let s = description.counts.len();
    let from = h + (3 * s + description.deltas.len());
    put_numbers(description.counts, bytes, h);
    put_starts(description.starts, bytes, h + s);
    put_signed(description.deltas, bytes, h + 3 * s);
    put_signed(description.coefficients, bytes, from);
}
