// The walk along a path: a point at each unit of length.
#![tactic(auto)]

ghost use Rattle.std.specs.Prelude.{◌≡◌, ◌+◌, ◌*◌, ◌≤◌, length};
ghost use Rattle.walk.specs.Walk.{distance_of, point_at, stretch_of, walk_in, walk_room, walked_of, WalkedOn, walk_length};

use curve::Point;

// Where a unit of length leads: to the path's end with what was walked until there, or to a point before the path's point at the index.
// Neither way is a failure, and the definitions stretch_in and after_stretch speak of both.
#[derive(Clone, Copy, Debug, PartialEq)]
enum Stretch {
    Ends(Point, f32),
    Emits(Point, usize),
}

// The length of a difference.
fn distance(delta: Point) -> f32
    ensures { result ≡ distance_of delta }
{
    roots::root(delta.x * delta.x + delta.y * delta.y)
}

// Point i of a path of two numbers a point.
fn point_at(path: &[f32], i: usize) -> Point
    requires { 2 * i + 2 ≤ length path.now }
    ensures { result ≡ point_at path.now i }
{
    Point {
        x: path[2 * i],
        y: path[2 * i + 1],
    }
}

// One unit of length on, from a point that lies before the path's point next.
fn onward(path: &[f32], next: usize, from: Point) -> Stretch
    ensures { result ≡ stretch_of path.now next from }
{
    let mut previous = from;
    let mut walked = 0.0;
    for i in next..path.len() / 2 {
        let q = point_at(path, i);
        let delta = q - previous;
        let l = distance(delta);
        if walked + l >= 1.0 {
            return Stretch::Emits(previous + delta * ((1.0 - walked) / l), i);
        }
        walked += l;
        previous = q;
    }
    Stretch::Ends(previous, walked)
}

// How many points a walk may have in a buffer of len numbers. The definition of this name stands in the contracts of crates above.
fn walk_room(len: usize) -> usize
    ensures { result ≡ walk_room len }
{
    (len / 3).min(8388608)
}

// The walk along a path of one point or more, on the front of out, three numbers a point: how many points it has, or None, where there is no
// room for them.
pub fn walk(path: &[f32], out: &mut [f32]) -> Option<usize>
    requires { 2 ≤ length path.now }
    ensures { (result ≡ walked_of (walk_in (walk_room (length out.old)) path.now))
        × WalkedOn (walk_in (walk_room (length out.old)) path.now) out.old out.new }
{
    let room = walk_room(out.len());
    if room == 0 {
        return None;
    }
    let mut current = point_at(path, 0);
    buffers::put(out, 0, &[current.x, current.y, 1.0]);
    let mut next = 0;
    for n in 1..room {
        match onward(path, next, current) {
            Stretch::Ends(q, d) => {
                buffers::put(out, 3 * n, &[q.x, q.y, d]);
                return Some(n + 1);
            }
            Stretch::Emits(q, i) => {
                buffers::put(out, 3 * n, &[q.x, q.y, 1.0]);
                current = q;
                next = i;
            }
        }
    }
    None
}

// The length of a walk of n points, by the last one's multiplier.
pub fn length_of(n: usize, last: f32) -> f32
    requires { (2 ≤ n) × (n ≤ 8388608) }
    ensures { result ≡ walk_length n last }
{
    ((n - 2) as f32) * 1.0 + last
}
