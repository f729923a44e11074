// The curve of a spline: points by value, windows of four points, and the path through the control points.
#![tactic(auto)]

ghost use Rattle.std.specs.Prelude.{◌≡◌, true, ◌+◌, ◌*◌, ◌/◌, ◌≤◌, ◌<◌, length, drop};
ghost use Rattle.std.proofs.lemmas.List.Edits.{sets};
ghost use Rattle.buffers.specs.Onto.{onto};
ghost use Rattle.control_points.specs.ControlPoints.{valid_point_pos, stand_at};
ghost use Rattle.control_points.specs.Asked.{Passable};
ghost use Rattle.curve.specs.Points.{add_point, sub_point, mul_point};
ghost use Rattle.curve.specs.Windows.{toward, time, levels, window_point};
ghost use Rattle.curve.specs.Curve.{point_of, reflected, interpolated, window_points, path_of, flat, path_room, curved_of, curved_on};
ghost use Rattle.curve.specs.Turns.{root_length, next_stand, first_turn, next_turn, turn_window, last_window};

use control_points::{Pair, Stand};
use std::ops::{Add, Mul, Sub};

// ---- points

#[derive(Clone, Copy, Debug, PartialEq)]
pub struct Point {
    pub x: f32,
    pub y: f32,
}

impl Add for Point {
    type Output = Point;

    ghost add_gives = { λ p q r. r ≡ add_point p q };

    fn add(self, q: Point) -> Point {
        Point {
            x: self.x + q.x,
            y: self.y + q.y,
        }
    }
}

impl Sub for Point {
    type Output = Point;

    ghost sub_gives = { λ p q r. r ≡ sub_point p q };

    fn sub(self, q: Point) -> Point {
        Point {
            x: self.x - q.x,
            y: self.y - q.y,
        }
    }
}

impl Mul<f32> for Point {
    type Output = Point;

    ghost mul_gives = { λ p k r. r ≡ mul_point p k };

    fn mul(self, k: f32) -> Point {
        Point {
            x: self.x * k,
            y: self.y * k,
        }
    }
}

impl Point {
    // From this point towards q, as far as tt lies from t in units of d.
    fn toward(self, q: Point, tt: f32, t: f32, d: f32) -> Point
        ensures { result ≡ toward self q tt t d }
    {
        self + (q - self) * ((tt - t) / d)
    }

    // The point on the other side of this one, as far away as q.
    fn reflected(self, q: Point) -> Point
        ensures { result ≡ reflected self q }
    {
        self + (self - q)
    }

    // A control point. In the range every whole number is exact.
    fn of(p: Pair) -> Point
        requires { valid_point_pos p ≡ true }
        ensures { result ≡ point_of p }
    {
        Point {
            x: p.x as f32,
            y: p.y as f32,
        }
    }
}

// ---- windows

// Four points, each but the last with the root of its distance to the next.
#[derive(Clone, Copy)]
struct Window {
    p0: Point,
    p1: Point,
    p2: Point,
    p3: Point,
    d0: f32,
    d1: f32,
    d2: f32,
}

impl Window {
    // Where on the window's scale its point i lies.
    fn time(self, i: usize) -> f32
        requires { i < 16 }
        ensures { result ≡ time self i }
    {
        self.d0 + ((i as f32) / 16.0) * self.d1
    }

    // The three levels at tt; t1 and t2 are where the second and the third point lie.
    fn levels(self, tt: f32, t1: f32, t2: f32) -> Point
        ensures { result ≡ levels self tt t1 t2 }
    {
        let a0 = self.p0.toward(self.p1, tt, 0.0, self.d0);
        let a1 = self.p1.toward(self.p2, tt, t1, self.d1);
        let a2 = self.p2.toward(self.p3, tt, t2, self.d2);
        let b0 = a0.toward(a1, tt, 0.0, self.d0 + self.d1);
        let b1 = a1.toward(a2, tt, t1, self.d1 + self.d2);
        b0.toward(b1, tt, t1, self.d1)
    }

    // The interpolated point i.
    fn point(self, i: usize) -> Point
        requires { i < 16 }
        ensures { result ≡ window_point self i }
    {
        let t1 = 0.0 + self.d0;
        let t2 = t1 + self.d1;
        self.levels(self.time(i), t1, t2)
    }
}

// A window's 15 points after its second one, written from cell k on.
fn put_interpolated(out: &mut [f32], k: usize, w: Window)
    requires { k + 30 ≤ length out.old }
    ensures { out.new ≡ sets out.old k (flat (interpolated w 15)) }
{
    for i in 0..15 {
        let p = w.point(i + 1);
        buffers::put(out, k + 2 * i, &[p.x, p.y]);
    }
}

// A window's second point and the 15 after it, written from cell k on.
fn put_window(out: &mut [f32], k: usize, w: Window)
    requires { k + 32 ≤ length out.old }
    ensures { out.new ≡ sets out.old k (flat (window_points w)) }
{
    buffers::put(out, k, &[w.p1.x, w.p1.y]);
    put_interpolated(out, k + 2, w);
}

// ---- turns

// Three points that follow one another, with the stand of the last one and the roots of both distances.
#[derive(Clone, Copy)]
struct Turn {
    p: Point,
    q: Point,
    r: Point,
    stand: Stand,
    d0: f32,
    d1: f32,
}

// The root of a delta's length. The delta is the exact difference of two control points.
fn root_length(delta: Pair) -> f32
    ensures { result ≡ root_length delta }
{
    roots::root(roots::length(delta.x, delta.y))
}

// The stand that the double delta k leads to.
fn next_stand(stand: Stand, deltas: &[i32], k: usize) -> Stand
    requires { Passable stand (drop (2 * k) deltas.now) × (2 * k + 2 ≤ length deltas.now) }
    ensures { result ≡ next_stand stand deltas.now k }
{
    stand.moved(Pair::of(deltas, k))
}

impl Turn {
    // At the start, which is followed by a stand. The reflected point lies as far away as the next one.
    fn first(start: Pair, stand: Stand) -> Turn
        requires { (valid_point_pos start ≡ true) × (valid_point_pos stand.point ≡ true) }
        ensures { result ≡ first_turn start stand }
    {
        let q = Point::of(start);
        let r = Point::of(stand.point);
        let p = q.reflected(r);
        let d = root_length(stand.delta);
        Turn {
            p,
            q,
            r,
            stand,
            d0: d,
            d1: d,
        }
    }

    fn next(self, stand: Stand) -> Turn
        requires { valid_point_pos stand.point ≡ true }
        ensures { result ≡ next_turn self stand }
    {
        Turn {
            p: self.q,
            q: self.r,
            r: Point::of(stand.point),
            stand,
            d0: self.d1,
            d1: root_length(stand.delta),
        }
    }

    // The window of the three points and s, which lies at the distance whose root is d.
    fn window(self, s: Point, d: f32) -> Window
        ensures { result ≡ turn_window self s d }
    {
        Window {
            p0: self.p,
            p1: self.q,
            p2: self.r,
            p3: s,
            d0: self.d0,
            d1: self.d1,
            d2: d,
        }
    }

    fn last(self) -> Window
        ensures { result ≡ last_window self }
    {
        self.window(self.r.reflected(self.q), self.d1)
    }
}

// ---- the path

// The turn at the start of a path of two control points or more.
fn first_turn(start: Pair, deltas: &[i32]) -> Turn
    requires { Passable (stand_at start) deltas.now × (2 ≤ length deltas.now) }
    ensures { result ≡ first_turn start (next_stand (stand_at start) deltas.now 0) }
{
    Turn::first(start, next_stand(Stand::at(start), deltas, 0))
}

// The path through m + 1 control points.
fn put_path(start: Pair, deltas: &[i32], out: &mut [f32], m: usize)
    requires { Passable (stand_at start) deltas.now × (m ≡ length deltas.now / 2) × (0 < m) × (32 * m + 2 ≤ length out.old) }
    ensures { out.new ≡ onto (flat (path_of start deltas.now)) out.old }
{
    let last = m - 1;
    let mut t = first_turn(start, deltas);
    for k in 0..last {
        let next = t.next(next_stand(t.stand, deltas, k + 1));
        put_window(out, 32 * k, t.window(next.r, next.d1));
        t = next;
    }
    put_window(out, 32 * last, t.last());
    buffers::put(out, 32 * m, &[t.r.x, t.r.y]);
}

// How many points a path may have in a buffer of len numbers. The definition of this name stands in the contracts of crates above.
fn path_room(len: usize) -> usize
    ensures { result ≡ path_room len }
{
    (len / 2).min(8388608)
}

// The path of a spline that was traced before, on the front of out: how many points it has, or None, where there is no room for them.
pub fn curve(start: Pair, deltas: &[i32], out: &mut [f32]) -> Option<usize>
    requires { Passable (stand_at start) deltas.now }
    ensures { (result ≡ curved_of (path_room (length out.old)) (path_of start deltas.now))
        × (out.new ≡ curved_on (path_room (length out.old)) (path_of start deltas.now) out.old) }
{
    let room = path_room(out.len());
    let m = deltas.len() / 2;
    if room == 0 || m > (room - 1) / 16 {
        return None;
    }
    if m == 0 {
        let p = Point::of(start);
        buffers::put(out, 0, &[p.x, p.y]);
        return Some(1);
    }
    put_path(start, deltas, out, m);
    Some(16 * m + 1)
}
