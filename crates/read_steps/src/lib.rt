// The loops that read the list: starts, double deltas and coefficients, each into a lent buffer.
// Each takes the next value apart or stops with SHORT, and goes on with the part of the list that begins after it.
// Each is told how many values are due, n, beside the buffer: to lend just the cells for them would say n at every call too, as the end of a part.
#![tactic(auto)]

ghost use Rattle.std.specs.Prelude.{◌≡◌, Bool, ◌*◌, ◌≤◌, ◌<◌, ◌^◌, leb, pos, nat_abs, ◌+ℤ◌, length};
ghost use Rattle.std.specs.Int.Signed.{mag};
ghost use Rattle.list.specs.List.{unpack_signed, pos_limit, delta_limit, beyond, coordinate, starts_in, deltas_in, coefficients_in};
ghost use Rattle.list.specs.Steps.{f32_of};
ghost use Rattle.read_steps.specs.Steps.{Rest, floats, Filled};

use codes::{Code, Refusal};
use list::unpack_signed;

// A packed value of 2^31 - 1 or more unpacks to a magnitude of 2^30 or more.
pub fn wild(a: u32, b: u32) -> bool
    ensures { result ≡ beyond delta_limit (unpack_signed a) (unpack_signed b) }
{
    2147483647 <= a || 2147483647 <= b
}

pub fn read_deltas(list: &[u32], total: usize, n: usize, out: &mut [i32]) -> Result<(), Refusal>
    requires { (2 * n ≤ length out.old) × Rest list.now total }
    ensures { Filled (deltas_in total n list.now) result out.old out.new }
{
    let mut rest = list;
    for i in 0..n {
        let [a, b, after @ ..] = rest else {
            return Err((Code::Short, total));
        };
        if wild(*a, *b) {
            return Err((Code::Delta, total - rest.len()));
        }
        out[2 * i] = unpack_signed(*a);
        out[2 * i + 1] = unpack_signed(*b);
        rest = after;
    }
    Ok(())
}

pub fn read_coefficients(
    list: &[u32],
    total: usize,
    n: usize,
    out: &mut [i32],
) -> Result<(), Refusal>
    requires { n ≤ length out.old }
    ensures { Filled (coefficients_in total n list.now) result out.old out.new }
{
    let mut rest = list;
    for i in 0..n {
        let [a, after @ ..] = rest else {
            return Err((Code::Short, total));
        };
        out[i] = unpack_signed(*a);
        rest = after;
    }
    Ok(())
}

pub fn moved(last: i64, by: i32) -> i64
    requires { mag last < 2 ^ 23 }
    ensures { result ≡ last +ℤ by }
{
    last + i64::from(by)
}

// The first start is unsigned, each later one a difference to the last.
pub fn coordinate_of(first: bool, last: i64, u: u32) -> i64
    requires { mag last < 2 ^ 23 }
    ensures { result ≡ coordinate first last u }
{
    if first {
        i64::from(u)
    } else {
        moved(last, unpack_signed(u))
    }
}

pub fn is_far(x: i64) -> bool
    ensures { result ≡ leb pos_limit (nat_abs x) }
{
    8388608 <= x.unsigned_abs()
}

pub fn far(x: i64, y: i64) -> bool
    ensures { result ≡ beyond pos_limit x y }
{
    is_far(x) || is_far(y)
}

// A whole number below 2^23 in magnitude is an f32. A cast, since std has no From of i64 for f32.
pub fn start_of(x: i64) -> f32
    requires { mag x < 2 ^ 23 }
    ensures { result ≡ f32_of x }
{
    x as f32
}

pub fn read_starts(list: &[u32], total: usize, n: usize, out: &mut [f32]) -> Result<(), Refusal>
    requires { (2 * n ≤ length out.old) × Rest list.now total }
    ensures { Filled (floats (starts_in total Bool.true (pos 0) (pos 0) n list.now)) result out.old out.new }
{
    let mut rest = list;
    let mut last_x: i64 = 0;
    let mut last_y: i64 = 0;
    for i in 0..n {
        let [a, b, after @ ..] = rest else {
            return Err((Code::Short, total));
        };
        let first = i == 0;
        let x = coordinate_of(first, last_x, *a);
        let y = coordinate_of(first, last_y, *b);
        if far(x, y) {
            return Err((Code::Coord, total - rest.len()));
        }
        out[2 * i] = start_of(x);
        out[2 * i + 1] = start_of(y);
        rest = after;
        last_x = x;
        last_y = y;
    }
    Ok(())
}
