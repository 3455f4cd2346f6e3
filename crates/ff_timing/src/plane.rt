//! Points and places to be asked about, the same each time.
ghost use Rattle.std.specs.Prelude.{IfOk};
ghost use Rattle.std.specs.List.{All};
ghost use Rattle.ff_whole.specs.Points.{IsNear};
ghost use Rattle.ff_whole.specs.Sizes.{IsSmallPlace};

use ff_whole::{Place, Pt};
use std::alloc::{AllocError, Global};

// The top 20 bits of a number scattered over 64 bits, around 0.
fn coordinate(n: u64) -> i64 {
    (n.wrapping_mul(0x9E37_79B9_7F4A_7C15) >> 44) as i64 - (1 << 19)
}

fn point(n: u64) -> Pt
    ensures { IsNear result }
{
    let point = Pt {
        x: coordinate(n),
        y: coordinate(n.wrapping_mul(n)),
    };
    if point.is_near() {
        point
    } else {
        Pt { x: 0, y: 0 }
    }
}

/// So many points.
pub fn points_of(alloc: Global, count: u64) -> Result<Vec<Pt>, AllocError>
    ensures { IfOk result (λ points. All IsNear points.items) }
{
    let mut points = Vec::new(alloc);
    for n in 0..count {
        points.push(point(n))?;
    }
    Ok(points)
}

fn place(p: Pt) -> Place
    requires { IsNear p }
    ensures { IsSmallPlace result }
{
    Place {
        x: p.x as i128,
        y: p.y as i128,
        w: 1,
    }
}

/// The points as places.
pub fn places_of(alloc: Global, points: &[Pt]) -> Result<Vec<Place>, AllocError>
    requires { All IsNear points.now }
    ensures { IfOk result (λ places. All IsSmallPlace places.items) }
{
    let mut places = Vec::new(alloc);
    for i in 0..points.len() {
        places.push(place(points[i]))?;
    }
    Ok(places)
}
