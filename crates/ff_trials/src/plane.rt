//! Calls of plane geometry.
use ff_whole::{Line, Place, Pt, cmp_height, cmp_x, corner, gcd, meet, orient, side_of, through};
use std::cmp::Ordering;
use std::test::Fail;

#[test]
fn lines_and_places(rt: HostRuntime) -> Result<(), Fail> {
    let (p, q) = (Pt { x: 1, y: -2 }, Pt { x: 5, y: 1 });
    assert_eq!(rt; orient(p, q, Pt { x: 1, y: -1 }), 1);
    assert_eq!(rt; orient(p, q, Pt { x: 9, y: 4 }), 0);
    assert_eq!(rt; orient(p, q, Pt { x: 5, y: 0 }), -1);
    let rising = through(p, q);
    let falling = Line { a: -6, b: -4, c: 2 };
    assert_eq!(rt; (rising.a, rising.b, rising.c), (-3, 4, -11));
    assert_eq!(rt; side_of(rising, Place { x: 6, y: -1, w: 2 }), 0);
    assert_eq!(rt; meet(rising, falling), Some(Place { x: 1, y: -2, w: 1 }));
    assert_eq!(rt; meet(rising, Line { a: 6, b: -8, c: 0 }), None);
    let at = Place { x: 1, y: 7, w: 3 };
    assert_eq!(rt; corner(rising, at), Place { x: 2, y: -15, w: 6 });
    assert_eq!(rt; cmp_height(rising, falling, at), Ordering::Less);
    assert_eq!(rt; cmp_x(at, Place { x: 1, y: 0, w: 2 }), Ordering::Less);
    assert_eq!(rt; gcd(12, 18), 6);
    Ok(())
}

// The place was computed by Cramer's rule with unbounded numbers.
#[test]
fn places_at_the_limit(rt: HostRuntime) -> Result<(), Fail> {
    let p = Pt {
        x: 8388606,
        y: -8388606,
    };
    let q = Pt {
        x: -8388607,
        y: -8388607,
    };
    let k = through(p, q);
    let l = Line {
        a: 1,
        b: 16777212,
        c: 140737412857866,
    };
    let n = Line {
        a: 16777213,
        b: -16777214,
        c: 8388607,
    };
    let m = Place {
        x: 4722363386645564096466,
        y: -25165818,
        w: 33554425,
    };
    let c = Place {
        x: 79228101123517370997126725724,
        y: 79228096401153702876678193283,
        w: 562949768871950,
    };
    assert_eq!(rt; (k.a, k.b, k.c), (1, -16777213, 140737438023684));
    assert_eq!(rt; meet(k, l), Some(m));
    assert_eq!(rt; corner(n, m), c);
    assert_eq!(rt; side_of(n, m), 1);
    assert_eq!(rt; side_of(k, c), -1);
    assert_eq!(rt; side_of(n, c), 0);
    Ok(())
}
