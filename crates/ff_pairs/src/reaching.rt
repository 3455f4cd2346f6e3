//! How far the marks of each face's row reach.
ghost use Rattle.std.specs.Prelude.{◌<◌, ◌≤◌, length};
ghost use Rattle.std.specs.List.{All};
ghost use Rattle.ff_pairs.specs.Tables.{AreRaised};

/// Lets each of the first `count` faces reach to the face before `past` at least.
pub fn raise(reach: &mut [u32], faces: &[u32], count: usize, past: u32)
    requires faces { All (λ f. f < length reach.old) faces.now }
    requires within { count ≤ length faces.now }
    ensures { AreRaised reach.old reach.new faces.now count past }
{
    for i in 0..count {
        let face = faces[i] as usize;
        reach[face] = reach[face].max(past);
    }
}
