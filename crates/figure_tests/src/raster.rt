//! Triangles whose pixels, depths and colours are known from another program.
//! What a contract says of every triangle isn't tried here.

ghost use Rattle.std.specs.Prelude.{◌^◌};
ghost use Rattle.triangle_raster.specs.Vertex.{AreCorners, IsCorner, IsWithin};

use std::process::Abort;
use triangle_raster::laws::{area_law, range_law, shared_edge_law, sharing_law};
use triangle_raster::{Area, Fragment, Setup, Spot, Vertex, View, plain};

/// 1 in 16.16 fixed, and the greatest coordinate.
const ONE: i32 = 65536;

const FAR: i32 = 134217728;

/// The whole of a frame of 4 by 4 pixels.
const VIEW: View = View {
    x: 0,
    y: 0,
    width: 4,
    height: 4,
};

const AREA: Area = Area {
    left: 0,
    bottom: 0,
    right: 4,
    top: 4,
};

fn bounded(number: i32) -> i32
    ensures { IsWithin (2 ^ 27) result }
{
    if number > FAR {
        FAR
    } else if number < -FAR {
        -FAR
    } else {
        number
    }
}

/// A corner at x, y, z, w with this red, green and blue.
fn corner(at: [i32; 4], colour: [i32; 3]) -> Vertex
    ensures { IsCorner result }
{
    Vertex {
        x: bounded(at[0]),
        y: bounded(at[1]),
        z: bounded(at[2]),
        w: bounded(at[3]),
        values: [
            bounded(colour[0]),
            bounded(colour[1]),
            bounded(colour[2]),
            ONE,
            0,
            0,
            ONE,
            0,
            0,
            ONE,
        ],
    }
}

/// A triangle with a red, a green and a blue corner.
fn triangle(at: [[i32; 4]; 3]) -> [Vertex; 3]
    ensures { AreCorners result }
{
    [
        corner(at[0], [ONE, 0, 0]),
        corner(at[1], [0, ONE, 0]),
        corner(at[2], [0, 0, ONE]),
    ]
}

/// Three corners, and the picture that they draw: four rows from the top, F for each pixel that is covered.
#[derive(Drop)]
struct Case {
    at: [[i32; 4]; 3],
    picture: [u8; 16],
}

fn rows_give(rt: &impl Abort, corners: &[Vertex; 3], picture: &[u8; 16])
    requires { AreCorners corners.now }
{
    match Setup::new(corners, VIEW, AREA) {
        Some(setup) => {
            for y in 0..4 {
                let mut row = setup.row(y as i32);
                for x in 0..4 {
                    let point = plain::pixel(corners, VIEW, x as i32, y as i32);
                    assert_eq!(rt; point.is_some(), picture[4 * (3 - y) + x] == b'F');
                    if point.is_some() {
                        assert_eq!(rt; row.next(), point);
                    }
                }
                assert_eq!(rt; row.next(), None);
            }
            assert_eq!(rt; setup.row(4).next(), None);
            assert_eq!(rt; setup.row(-1).next(), None);
        }
        None => assert_eq!(rt; *picture, *b"0000000000000000"),
    }
}

// The pictures are those of the reference program.
#[test]
fn rows_agree_with_the_plain_program_and_the_reference(rt: HostRuntime) {
    let cases = [
        // Half of the frame, and the same the other way round.
        Case {
            at: [
                [-ONE, -ONE, 0, ONE],
                [ONE, -ONE, 0, ONE],
                [-ONE, ONE, 0, ONE],
            ],
            picture: *b"0000F000FF00FFF0",
        },
        Case {
            at: [
                [-ONE, -ONE, 0, ONE],
                [-ONE, ONE, 0, ONE],
                [ONE, -ONE, 0, ONE],
            ],
            picture: *b"0000F000FF00FFF0",
        },
        // The third corner in the middle of the frame.
        Case {
            at: [[-ONE, -ONE, 0, ONE], [ONE, -ONE, 0, ONE], [0, 0, 0, ONE]],
            picture: *b"000000000F00FFF0",
        },
        // The other half: the shared edge runs through centres.
        Case {
            at: [[-ONE, ONE, 0, ONE], [ONE, -ONE, 0, ONE], [ONE, ONE, 0, ONE]],
            picture: *b"FFFF0FFF00FF000F",
        },
        // The third corner behind the eye.
        Case {
            at: [
                [-ONE, -ONE, 0, ONE],
                [0, -ONE, 0, ONE],
                [0, 3 * ONE, 0, -ONE],
            ],
            picture: *b"FF00FF00FF00FF00",
        },
        // The third corner is the first one.
        Case {
            at: [
                [-ONE, -ONE, 0, ONE],
                [0, -ONE, 0, ONE],
                [-ONE, -ONE, 0, ONE],
            ],
            picture: *b"0000000000000000",
        },
        // Corners as far away as can be, before the eye and behind it.
        Case {
            at: [[-FAR, -FAR, 0, ONE], [FAR, -FAR, 0, ONE], [0, FAR, 0, ONE]],
            picture: *b"FFFFFFFFFFFFFFFF",
        },
        Case {
            at: [
                [-FAR, -FAR, 0, -FAR],
                [FAR, -FAR, 0, -FAR],
                [0, FAR, 0, -FAR],
            ],
            picture: *b"0000000000000000",
        },
        // Parts of it before the near plane and past the far one.
        Case {
            at: [
                [-ONE, -ONE, -ONE, ONE],
                [2 * ONE, -ONE, 0, 2 * ONE],
                [-ONE, 3 * ONE, 3 * ONE, 2 * ONE],
            ],
            picture: *b"0F00FFF0FFFFFF00",
        },
    ];
    for case in &cases {
        rows_give(&rt, &triangle(case.at), &case.picture);
    }
}

/// A fragment as the reference program shows it: its depth, and the bytes of its red, green and blue.
#[derive(Drop)]
struct Wanted {
    x: i32,
    y: i32,
    depth: u16,
    colour: [i64; 3],
}

fn wanted_at(x: i32, y: i32, depth: u16, colour: [i64; 3]) -> Wanted {
    Wanted {
        x,
        y,
        depth,
        colour,
    }
}

/// A fixed value of 0 to 1 as a byte.
fn byte(value: i32) -> i64 {
    (value as i64 * 255 + 32768) / 65536
}

#[test]
fn depths_and_colours_are_those_of_the_reference(rt: HostRuntime) {
    let wanted = [
        wanted_at(0, 0, 9916, [229, 15, 11]),
        wanted_at(1, 0, 14227, [192, 59, 4]),
        wanted_at(0, 1, 25437, [202, 8, 45]),
        wanted_at(1, 1, 29749, [158, 56, 42]),
        wanted_at(2, 1, 34060, [98, 119, 38]),
        wanted_at(3, 1, 38372, [13, 209, 33]),
        wanted_at(0, 2, 40959, [170, 0, 85]),
        wanted_at(1, 2, 45270, [114, 52, 88]),
        wanted_at(2, 2, 49582, [37, 124, 93]),
        wanted_at(1, 3, 60792, [59, 47, 148]),
    ];
    let corners = triangle([
        [-ONE, -ONE, -ONE, ONE],
        [2 * ONE, -ONE, 0, 2 * ONE],
        [-ONE, 3 * ONE, 3 * ONE, 2 * ONE],
    ]);
    let setup = Setup::new(&corners, VIEW, AREA).expect(&rt, "the corners stand on no line");
    assert!(rt; setup.counter_clockwise());
    area_law(&setup, 1);
    range_law(&setup, 1);
    sharing_law();
    let mut seen = 0;
    for y in 0..4 {
        let mut row = setup.row(y);
        for _ in 0..4 {
            let spot = row.look();
            if let Some(fragment) = row.next() {
                assert!(rt; seen < 10);
                let wanted = &wanted[seen];
                assert_eq!(rt;
                    spot,
                    Some(Spot {
                        x: wanted.x,
                        y: wanted.y,
                        depth: wanted.depth
                    })
                );
                assert_eq!(rt;
                    (fragment.x, fragment.y, fragment.depth),
                    (wanted.x, wanted.y, wanted.depth)
                );
                assert_eq!(rt; byte(fragment.values[0]), wanted.colour[0]);
                assert_eq!(rt; byte(fragment.values[1]), wanted.colour[1]);
                assert_eq!(rt; byte(fragment.values[2]), wanted.colour[2]);
                seen += 1;
            }
        }
    }
    assert_eq!(rt; seen, 10);
}

// The third row of that picture from below has three fragments.
#[test]
fn a_skipped_fragment_is_left_out(rt: HostRuntime) {
    let corners = triangle([
        [-ONE, -ONE, -ONE, ONE],
        [2 * ONE, -ONE, 0, 2 * ONE],
        [-ONE, 3 * ONE, 3 * ONE, 2 * ONE],
    ]);
    let setup = Setup::new(&corners, VIEW, AREA).expect(&rt, "the corners stand on no line");
    let mut row = setup.row(2);
    row.skip();
    assert_eq!(rt; row.next(), plain::pixel(&corners, VIEW, 1, 2));
    row.skip();
    assert_eq!(rt; row.look(), None);
    row.skip();
    assert_eq!(rt; row.next(), None);
}

// The depth of corners that stand level is 65535 * (z + w) / (2 * w).
#[test]
fn level_corners_leave_one_depth(rt: HostRuntime) {
    let half = ONE / 2;
    let corners = triangle([
        [-ONE, -ONE, half, ONE],
        [3 * ONE, -ONE, half, ONE],
        [-ONE, 3 * ONE, half, ONE],
    ]);
    let setup = Setup::new(&corners, VIEW, AREA).expect(&rt, "the corners stand on no line");
    let mut seen = 0u32;
    for y in 0..4 {
        let mut row = setup.row(y);
        for _ in 0..4 {
            if let Some(fragment) = row.next() {
                assert_eq!(rt; fragment.depth, 49151);
                assert_eq!(rt; fragment.values[3], ONE);
                seen = seen.wrapping_add(1);
            }
        }
    }
    assert_eq!(rt; seen, 16);
}

/// Rows of a triangle in one colour, whose depth is the same in every column, are runs.
fn runs_are_rows(rt: &impl Abort, at: [[i32; 4]; 3]) {
    let corners = [
        corner(at[0], [ONE, 0, 7]),
        corner(at[1], [ONE, 0, 7]),
        corner(at[2], [ONE, 0, 7]),
    ];
    let setup = Setup::new(&corners, VIEW, AREA).expect(rt, "the corners stand on no line");
    for y in 0..4 {
        let run = setup
            .run(y)
            .expect(rt, "depth and values are the same in every column");
        let mut row = setup.row(y);
        let mut wanted = run.first;
        for _ in 0..run.count {
            assert_eq!(rt; row.next(), Some(wanted));
            wanted.x = wanted.x.wrapping_add(1);
        }
        assert_eq!(rt; row.next(), None);
    }
    assert_eq!(rt; setup.run(-1), None);
    assert_eq!(rt; setup.run(4), None);
}

#[test]
fn a_run_is_all_of_a_row(rt: HostRuntime) {
    let half = ONE / 2;
    let cases = [
        // One depth.
        [
            [-ONE, -ONE, half, ONE],
            [3 * ONE, -ONE, half, ONE],
            [-ONE, 3 * ONE, half, ONE],
        ],
        // One depth a row, the highest past the far plane.
        [
            [-ONE, -ONE, -half, ONE],
            [ONE, -ONE, -half, ONE],
            [0, ONE, 2 * ONE, ONE],
        ],
        // All past the far plane.
        [
            [-ONE, -ONE, 2 * ONE, ONE],
            [ONE, -ONE, 2 * ONE, ONE],
            [0, ONE, 2 * ONE, ONE],
        ],
        // Corners so far away that sums take more than 64 bits.
        [[-FAR, -FAR, 0, ONE], [FAR, -FAR, 0, ONE], [0, FAR, 0, ONE]],
        [[-FAR, -FAR, 0, FAR], [FAR, -FAR, 0, FAR], [0, FAR, 0, FAR]],
    ];
    for at in &cases {
        runs_are_rows(&rt, *at);
    }
    let corners = triangle(cases[0]);
    let setup = Setup::new(&corners, VIEW, AREA).expect(&rt, "the corners stand on no line");
    assert_eq!(rt; setup.run(0), None);
}

/// Adds one for each fragment of a triangle, and says how many there were.
fn drawn(rt: &impl Abort, corners: &[Vertex; 3], pixels: &mut [u8; 16]) -> usize
    requires { AreCorners corners.now }
{
    let setup = Setup::new(corners, VIEW, AREA).expect(rt, "the corners stand on no line");
    let mut count = 0usize;
    for y in 0..4 {
        let mut row = setup.row(y);
        for _ in 0..4 {
            if let Some(Fragment { x, y, .. }) = row.next() {
                assert!(rt; x >= 0);
                assert!(rt; x < 4);
                assert!(rt; y >= 0);
                assert!(rt; y < 4);
                let at = (4 * y + x) as usize;
                pixels[at] = pixels[at].wrapping_add(1);
                count = count.wrapping_add(1);
            }
        }
    }
    count
}

#[test]
fn two_triangles_cover_a_square_once(rt: HostRuntime) {
    let low_left = [-ONE, -ONE, 0, ONE];
    let low_right = [ONE, -ONE, 0, ONE];
    let top_left = [-ONE, ONE, 0, ONE];
    let top_right = [ONE, ONE, 0, ONE];

    let one = triangle([low_left, low_right, top_left]);
    let other = triangle([top_left, low_right, top_right]);
    let mut pixels = [0; 16];
    assert_eq!(rt; drawn(&rt, &one, &mut pixels), 6);
    assert_eq!(rt; drawn(&rt, &other, &mut pixels), 10);
    assert_eq!(rt; pixels, [1; 16]);
    shared_edge_law(&one, &other, VIEW, 0, 3);

    let mut pixels = [0; 16];
    drawn(
        &rt,
        &triangle([low_left, low_right, top_right]),
        &mut pixels,
    );
    drawn(&rt, &triangle([low_left, top_right, top_left]), &mut pixels);
    assert_eq!(rt; pixels, [1; 16]);
}
