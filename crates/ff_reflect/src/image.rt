//! Where a face's vertex goes, from where the ends of one of its edges go.
ghost use Rattle.std.specs.Prelude.{◌≡◌, pos, ◌+ℤ◌, ◌-ℤ◌, ◌*ℤ◌, ◌<ℤ◌, IfSome};
ghost use Rattle.ff_whole.specs.Sizes.{IsBelow};
ghost use Rattle.ff_whole.specs.Points.{IsNear, turn};
ghost use Rattle.ff_whole.specs.Meeting.{IsReduced};
ghost use Rattle.ff_types.specs.Foldings.{signed, spread};
ghost use Rattle.ff_reflect.specs.Images.{IsImageOf};
ghost use Rattle.ff_reflect.specs.Puts.{IsFit};

use crate::sizes::{IMAGE_SIZE, LENGTH_SIZE};
use ff_whole::{POINT_SIZE, Place, Pt, SLOPE_SIZE, reduced};

/// The point `(x / n, y / n)`, where `n` is the squared length of an edge.
#[derive(Clone, Copy, Debug, PartialEq, Eq)]
pub(crate) struct Image {
    pub(crate) x: i128,
    pub(crate) y: i128,
    pub(crate) n: i64,
}

/// An edge from `p` to `q` with its image from `u` to `v`, in a face that is up or down.
#[derive(Clone, Copy, Debug, PartialEq, Eq)]
pub(crate) struct Hinge {
    pub(crate) up: bool,
    pub(crate) p: Pt,
    pub(crate) q: Pt,
    pub(crate) u: Pt,
    pub(crate) v: Pt,
}

// How long and how wide apart the ways from p to q and from p to r are.
fn spread_of(p: Pt, q: Pt, r: Pt) -> i64
    requires p_near { IsNear p }
    requires q_near { IsNear q }
    requires r_near { IsNear r }
    ensures value { result ≡ spread p q r }
    ensures size { IsBelow LENGTH_SIZE result }
{
    (q.x - p.x) * (r.x - p.x) + (q.y - p.y) * (r.y - p.y)
}

// Twice the signed area of the triangle p, q, r.
fn turn_of(p: Pt, q: Pt, r: Pt) -> i64
    requires p_near { IsNear p }
    requires q_near { IsNear q }
    requires r_near { IsNear r }
    ensures value { result ≡ turn p q r }
    ensures size { IsBelow LENGTH_SIZE result }
{
    (q.x - p.x) * (r.y - p.y) - (q.y - p.y) * (r.x - p.x)
}

fn signed_of(up: bool, z: i64) -> i64
    requires { IsBelow LENGTH_SIZE z }
    ensures value { result ≡ signed up z }
    ensures size { IsBelow LENGTH_SIZE result }
{
    if up { z } else { -z }
}

// n times a coordinate, moved by a times d and back by c times e.
fn moved(n: i64, at: i64, a: i64, d: i64, c: i64, e: i64) -> i128
    requires n_size { IsBelow LENGTH_SIZE n }
    requires at_size { IsBelow POINT_SIZE at }
    requires a_size { IsBelow LENGTH_SIZE a }
    requires d_size { IsBelow SLOPE_SIZE d }
    requires c_size { IsBelow LENGTH_SIZE c }
    requires e_size { IsBelow SLOPE_SIZE e }
    ensures value { result ≡ (n *ℤ at) +ℤ ((a *ℤ d) -ℤ (c *ℤ e)) }
    ensures size { IsBelow IMAGE_SIZE result }
{
    n as i128 * at as i128 + (a as i128 * d as i128 - c as i128 * e as i128)
}

/// The image of `r`.
pub(crate) fn image_of(hinge: Hinge, r: Pt) -> Image
    requires p_near { IsNear hinge.p }
    requires q_near { IsNear hinge.q }
    requires r_near { IsNear r }
    requires u_near { IsNear hinge.u }
    requires v_near { IsNear hinge.v }
    ensures { IsImageOf hinge r result }
{
    let n = spread_of(hinge.p, hinge.q, hinge.q);
    let a = spread_of(hinge.p, hinge.q, r);
    let c = signed_of(hinge.up, turn_of(hinge.p, hinge.q, r));
    let (dx, dy) = (hinge.v.x - hinge.u.x, hinge.v.y - hinge.u.y);
    Image {
        x: moved(n, hinge.u.x, a, dx, c, dy),
        y: moved(n, hinge.u.y, a, dy, -c, dx),
        n,
    }
}

// The quotient, where it is whole.
fn whole(x: i128, n: i128) -> Option<i128>
    requires { pos 0 <ℤ n }
    ensures { IfSome result (λ q. x ≡ n *ℤ q) }
{
    if x % n == 0 { Some(x / n) } else { None }
}

/// The image in lowest terms. Mostly it is whole.
pub(crate) fn lowest(image: Image) -> Place
    requires { IsFit image }
    ensures { IsReduced image.x image.y image.n result }
{
    let n = image.n as i128;
    if let Some(x) = whole(image.x, n)
        && let Some(y) = whole(image.y, n)
    {
        return Place { x, y, w: 1 };
    }
    reduced(image.x, image.y, n)
}
