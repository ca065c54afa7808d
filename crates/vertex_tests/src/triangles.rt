//! Which vertices make which triangle.

use std::process::Abort;
use vertex_stage::{Triple, triangle, triangle_count};

/// The triangles that so many vertices make in a mode, in order, are these.
fn makes(rt: &impl Abort, mode: u32, count: u32, wanted: &[(u32, u32, u32)]) {
    assert_eq!(rt;
        triangle_count(mode, count) as usize,
        wanted.len(),
        "mode {mode}"
    );
    for number in 0..triangle_count(mode, count) {
        let Triple {
            first,
            second,
            third,
        } = triangle(mode, count, number);
        assert_eq!(rt;
            wanted.get(number as usize).copied(),
            Some((first, second, third)),
            "mode {mode}"
        );
    }
}

#[test]
fn each_mode_makes_its_triangles(rt: HostRuntime) {
    let threes = [(0, 1, 2), (3, 4, 5)];
    makes(&rt, 4, 6, threes.as_slice());
    makes(&rt, 4, 8, threes.as_slice());
    makes(
        &rt,
        5,
        6,
        [(0, 1, 2), (2, 1, 3), (2, 3, 4), (4, 3, 5)].as_slice(),
    );
    makes(&rt, 6, 5, [(0, 1, 2), (0, 2, 3), (0, 3, 4)].as_slice());
    for mode in 0..7 {
        makes(&rt, mode, 0, [].as_slice());
        makes(&rt, mode, 2, [].as_slice());
    }
    for mode in 0..4 {
        makes(&rt, mode, 9, [].as_slice());
    }
}
