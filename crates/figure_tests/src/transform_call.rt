//! The matrices of each call on corner values, known from another program.
//! What a contract says of every matrix isn't tried here.

use fixed_transform::{Matrix, frustum, ortho, rotation};

/// What a call is given, and the 16 numbers of its matrix, by columns.
#[derive(Drop)]
struct Turn {
    call: [i32; 4],
    values: [i32; 16],
}

/// The same for a call with six sides.
#[derive(Drop)]
struct Sides {
    call: [i32; 6],
    values: [i32; 16],
}

// The numbers are those of the reference program after the call on the identity.
#[test]
fn a_turn_is_that_of_the_reference(rt: HostRuntime) {
    let cases = [
        // No turn, a quarter to the left and to the right.
        Turn {
            call: [0, 0, 0, 65536],
            values: [
                65536, 0, 0, 0, 0, 65536, 0, 0, 0, 0, 65536, 0, 0, 0, 0, 65536,
            ],
        },
        Turn {
            call: [5898240, 0, 0, 65536],
            values: [
                0, 65536, 0, 0, -65536, 0, 0, 0, 0, 0, 65536, 0, 0, 0, 0, 65536,
            ],
        },
        Turn {
            call: [-5898240, 0, 0, 65536],
            values: [
                0, -65536, 0, 0, 65536, 0, 0, 0, 0, 0, 65536, 0, 0, 0, 0, 65536,
            ],
        },
        // Half a turn to both sides, and a whole one.
        Turn {
            call: [11796480, 0, 0, 65536],
            values: [
                -65536, 0, 0, 0, 0, -65536, 0, 0, 0, 0, 65536, 0, 0, 0, 0, 65536,
            ],
        },
        Turn {
            call: [-11796480, 65536, 0, 0],
            values: [
                65536, 0, 0, 0, 0, -65536, 0, 0, 0, 0, -65536, 0, 0, 0, 0, 65536,
            ],
        },
        Turn {
            call: [23592960, 0, 65536, 0],
            values: [
                65536, 0, 0, 0, 0, 65536, 0, 0, 0, 0, 65536, 0, 0, 0, 0, 65536,
            ],
        },
        Turn {
            call: [-23592960, 0, 0, 1],
            values: [
                65536, 0, 0, 0, 0, 65536, 0, 0, 0, 0, 65536, 0, 0, 0, 0, 65536,
            ],
        },
        // No axis, and a tiny one.
        Turn {
            call: [5898240, 0, 0, 0],
            values: [
                65536, 0, 0, 0, 0, 65536, 0, 0, 0, 0, 65536, 0, 0, 0, 0, 65536,
            ],
        },
        Turn {
            call: [2949120, 1, 0, 0],
            values: [
                65536, 0, 0, 0, 0, 46260, 46260, 0, 0, -46260, 46260, 0, 0, 0, 0, 65536,
            ],
        },
        // Short axes, whose lengths are rounded down.
        Turn {
            call: [1966080, 1, 1, 1],
            values: [
                65536, 41625, -23911, 0, -23911, 65536, 41625, 0, 41625, -23911, 65536, 0, 0, 0, 0,
                65536,
            ],
        },
        Turn {
            call: [-1966080, 3, -2, 5],
            values: [
                58893, -28784, -7233, 0, 25830, 57663, -18845, 0, 14613, 13923, 62829, 0, 0, 0, 0,
                65536,
            ],
        },
        Turn {
            call: [1, 0, 0, -1],
            values: [
                65535, 0, 0, 0, 0, 65535, 0, 0, 0, 0, 65536, 0, 0, 0, 0, 65536,
            ],
        },
        Turn {
            call: [-1, 65536, 131072, -196608],
            values: [
                65535, 0, -1, 0, 0, 65535, -1, 0, -1, -1, 65535, 0, 0, 0, 0, 65536,
            ],
        },
        // The ends of the range.
        Turn {
            call: [2147483647, -2147483648, -2147483648, -2147483648],
            values: [
                65105, -5108, 5538, 0, 5538, 65105, -5108, 0, -5108, 5538, 65105, 0, 0, 0, 0, 65536,
            ],
        },
        Turn {
            call: [-2147483648, 2147483647, -2147483648, 1],
            values: [
                65212, -323, -6518, 0, -323, 65213, -6519, 0, 6518, 6519, 64890, 0, 0, 0, 0, 65536,
            ],
        },
        Turn {
            call: [8982753, -2147483648, 0, 0],
            values: [
                65536, 0, 0, 0, 0, -47896, -44566, 0, 0, 44566, -47896, 0, 0, 0, 0, 65536,
            ],
        },
        Turn {
            call: [13107200, 2147483647, 2147483647, 2147483647],
            values: [
                -19182, 29373, 55341, 0, 55341, -19182, 29373, 0, 29373, 55341, -19182, 0, 0, 0, 0,
                65536,
            ],
        },
        // A length of 1 for an axis that is longer, and an angle just past half a turn.
        Turn {
            call: [5898240, 1, -1, 0],
            values: [
                65536, -65536, 65536, 0, -65536, 65536, 65536, 0, -65536, -65536, 0, 0, 0, 0, 0,
                65536,
            ],
        },
        Turn {
            call: [11796481, 0, -2147483648, -2147483648],
            values: [
                -65535, 0, 0, 0, 0, 0, 65535, 0, 0, 65535, 0, 0, 0, 0, 0, 65536,
            ],
        },
    ];
    for case in &cases {
        let [angle, x, y, z] = case.call;
        assert_eq!(rt; rotation(angle, x, y, z), Matrix::from_values(case.values));
    }
}

// The numbers are those of the reference program after the call on the identity.
#[test]
fn a_frustum_is_that_of_the_reference(rt: HostRuntime) {
    let cases = [
        Sides {
            call: [-65536, 65536, -65536, 65536, 65536, 131072],
            values: [
                65536, 0, 0, 0, 0, 65536, 0, 0, 0, 0, -196608, -65536, 0, 0, -262144, 0,
            ],
        },
        Sides {
            call: [0, 1, 0, -1, 2147483647, 1],
            values: [
                2147483647,
                0,
                0,
                0,
                0,
                -2147483648,
                0,
                0,
                65536,
                65536,
                65536,
                -65536,
                0,
                0,
                2,
                0,
            ],
        },
        Sides {
            call: [1, 0, 2147483647, -2147483648, 1, 2147483647],
            values: [
                -131072, 0, 0, 0, 0, -1, 0, 0, -65536, 0, -65537, -65536, 0, 0, -3, 0,
            ],
        },
        Sides {
            call: [-2147483648, 2147483647, -1, 1, 2147483647, 2147483646],
            values: [
                65535, 0, 0, 0, 0, 2147483647, 0, 0, -1, 0, 2147483647, -65536, 0, 0, 2147483647, 0,
            ],
        },
        Sides {
            call: [2147483647, 2147483646, -2147483648, -2147483647, 3, 2],
            values: [
                -393216,
                0,
                0,
                0,
                0,
                393216,
                0,
                0,
                -2147483648,
                -2147483648,
                327680,
                -65536,
                0,
                0,
                12,
                0,
            ],
        },
        Sides {
            call: [7, -5, 3, 1000, 100, 7],
            values: [
                -1092267, 0, 0, 0, 0, 13146, 0, 0, -10923, 65930, 75401, -65536, 0, 0, 15, 0,
            ],
        },
        Sides {
            call: [-3, 4, 5, -6, 1, 2],
            values: [
                18724, 0, 0, 0, 0, -11916, 0, 0, 9362, 5957, -196608, -65536, 0, 0, -4, 0,
            ],
        },
        Sides {
            call: [-131072, 196608, 65536, -65536, 327680, 458753],
            values: [
                131072, 0, 0, 0, 0, -327680, 0, 0, 13107, 0, -393214, -65536, 0, 0, -2293748, 0,
            ],
        },
        Sides {
            call: [
                -2147483648,
                2147483647,
                2147483647,
                -2147483648,
                1,
                2147483647,
            ],
            values: [0, 0, 0, 0, 0, -1, 0, 0, -1, 0, -65537, -65536, 0, 0, -3, 0],
        },
    ];
    for case in &cases {
        let [left, right, bottom, top, near, far] = case.call;
        assert!(rt; near > 0);
        assert!(rt; far > 0);
        assert!(rt; left != right);
        assert!(rt; bottom != top);
        assert!(rt; near != far);
        assert_eq!(rt;
            frustum(left, right, bottom, top, near, far),
            Matrix::from_values(case.values)
        );
    }
}

// The numbers are those of the reference program after the call on the identity.
#[test]
fn an_ortho_is_that_of_the_reference(rt: HostRuntime) {
    let cases = [
        Sides {
            call: [-65536, 65536, -65536, 65536, -65536, 65536],
            values: [
                65536, 0, 0, 0, 0, 65536, 0, 0, 0, 0, -65536, 0, 0, 0, 0, 65536,
            ],
        },
        Sides {
            call: [0, 1, 0, -1, 2147483647, -2147483648],
            values: [
                2147483647,
                0,
                0,
                0,
                0,
                -2147483648,
                0,
                0,
                0,
                0,
                2,
                0,
                -65536,
                -65536,
                -1,
                65536,
            ],
        },
        Sides {
            call: [-2147483648, 2147483647, 2147483647, -2147483648, 0, 1],
            values: [
                2,
                0,
                0,
                0,
                0,
                -3,
                0,
                0,
                0,
                0,
                -2147483648,
                0,
                0,
                -1,
                -65536,
                65536,
            ],
        },
        Sides {
            call: [2147483647, 2147483646, -2147483648, -2147483647, 3, 2],
            values: [
                -2147483648,
                0,
                0,
                0,
                0,
                2147483647,
                0,
                0,
                0,
                0,
                2147483647,
                0,
                2147483647,
                2147483647,
                327680,
                65536,
            ],
        },
        Sides {
            call: [7, -5, 3, 1000, 100, 7],
            values: [
                -715827883, 0, 0, 0, 0, 8615781, 0, 0, 0, 0, 92364888, 0, 10922, -65931, 75401,
                65536,
            ],
        },
        Sides {
            call: [-3, 4, 5, -6, 1, 2],
            values: [
                1227133513,
                0,
                0,
                0,
                0,
                -780903145,
                0,
                0,
                0,
                0,
                -2147483648,
                0,
                -9363,
                -5958,
                -196608,
                65536,
            ],
        },
        Sides {
            call: [-131072, 196608, 65536, -65536, 327680, -458753],
            values: [
                26214, 0, 0, 0, 0, -65536, 0, 0, 0, 0, 10922, 0, -13108, 0, -10923, 65536,
            ],
        },
        Sides {
            call: [0, 131072, 3, 0, -7, 0],
            values: [
                65536,
                0,
                0,
                0,
                0,
                -2147483648,
                0,
                0,
                0,
                0,
                -1227133514,
                0,
                -65536,
                65536,
                65536,
                65536,
            ],
        },
    ];
    for case in &cases {
        let [left, right, bottom, top, near, far] = case.call;
        assert!(rt; left != right);
        assert!(rt; bottom != top);
        assert!(rt; near != far);
        assert_eq!(rt;
            ortho(left, right, bottom, top, near, far),
            Matrix::from_values(case.values)
        );
    }
}
