//! Matrices as calls leave them on the stacks, and what gets then reply. Names stand as their numbers.

use crate::calls::{first_wrong, first_wrong_on};
use gl_memory::ClientMemory;
use std::test::Fail;

/// Worked by hand, 65536 being 1: a translation by 1, 2 and 3, and then a scaling by 2, which leaves the last column, since
/// it stands on the right; 5898240 is 90 degrees. The last row but one asks for the matrix of the other unit.
const MATRICES: &str = "\
Translatex 65536 131072 196608 :
GetFixedv 2982 0 : 65536 0 0 0 0 65536 0 0 0 0 65536 0 65536 131072 196608 65536
PushMatrix :
GetFixedv 2982 0 : 65536 0 0 0 0 65536 0 0 0 0 65536 0 65536 131072 196608 65536
Scalex 131072 131072 131072 :
GetFixedv 2982 0 : 131072 0 0 0 0 131072 0 0 0 0 131072 0 65536 131072 196608 65536
PopMatrix :
GetFixedv 2982 0 : 65536 0 0 0 0 65536 0 0 0 0 65536 0 65536 131072 196608 65536
LoadIdentity :
PopMatrix :
GetFixedv 2982 0 : 65536 0 0 0 0 65536 0 0 0 0 65536 0 0 0 0 65536
MatrixMode 5889 :
Translatex 65536 131072 196608 :
PushMatrix :
GetFixedv 2983 0 : 65536 0 0 0 0 65536 0 0 0 0 65536 0 65536 131072 196608 65536
Scalex 131072 131072 131072 :
GetFixedv 2983 0 : 131072 0 0 0 0 131072 0 0 0 0 131072 0 65536 131072 196608 65536
PopMatrix :
GetFixedv 2983 0 : 65536 0 0 0 0 65536 0 0 0 0 65536 0 65536 131072 196608 65536
LoadIdentity :
PopMatrix :
GetFixedv 2983 0 : 65536 0 0 0 0 65536 0 0 0 0 65536 0 0 0 0 65536
MatrixMode 5890 :
Translatex 65536 131072 196608 :
PushMatrix :
GetFixedv 2984 0 : 65536 0 0 0 0 65536 0 0 0 0 65536 0 65536 131072 196608 65536
Scalex 131072 131072 131072 :
GetFixedv 2984 0 : 131072 0 0 0 0 131072 0 0 0 0 131072 0 65536 131072 196608 65536
PopMatrix :
GetFixedv 2984 0 : 65536 0 0 0 0 65536 0 0 0 0 65536 0 65536 131072 196608 65536
LoadIdentity :
PopMatrix :
GetFixedv 2984 0 : 65536 0 0 0 0 65536 0 0 0 0 65536 0 0 0 0 65536
MatrixMode 5889 :
Rotatex 5898240 0 0 65536 :
GetFixedv 2982 0 : 65536 0 0 0 0 65536 0 0 0 0 65536 0 0 0 0 65536
GetFixedv 2983 0 : 0 65536 0 0 -65536 0 0 0 0 0 65536 0 0 0 0 65536
MatrixMode 5890 :
Translatex 65536 131072 196608 :
GetFixedv 2984 0 : 65536 0 0 0 0 65536 0 0 0 0 65536 0 65536 131072 196608 65536
ActiveTexture 33985 :
GetFixedv 2984 0 : 65536 0 0 0 0 65536 0 0 0 0 65536 0 0 0 0 65536
GetError : 1284
";

#[test]
fn a_get_gives_a_matrix_by_columns(rt: HostRuntime) -> Result<(), Fail> {
    assert_eq!(rt; first_wrong(rt.alloc(), MATRICES)?, None);
    Ok(())
}

/// Writes the numbers of a matrix from a place on, of four bytes each, the lowest first.
fn write_matrix(memory: &mut ClientMemory, place: u32, numbers: &[i32; 16]) {
    for at in 0..16_usize {
        memory.write(u64::from(place) + 4 * at as u64, &numbers[at].to_le_bytes());
    }
}

const FIRST_MATRIX: [i32; 16] = [
    32768,
    65536,
    98304,
    -1,
    163840,
    196608,
    229376,
    262144,
    294912,
    327680,
    360448,
    393216,
    425984,
    458752,
    491520,
    -2147483648,
];

const SECOND_MATRIX: [i32; 16] = [
    -40000, -39000, -36000, -31000, -24000, -15000, -4000, 9000, 24000, 41000, 60000, 81000,
    104000, 129000, 156000, 185000,
];

/// The matrices lie at 4 and at 69 of 192 bytes; 5889 and 5890 are PROJECTION and TEXTURE, 33985 is TEXTURE1. What lies
/// outside memory is read as zeros.
const LOADED: &str = "\
LoadMatrixx 4 :
GetFixedv 2982 0 : 32768 65536 98304 -1 163840 196608 229376 262144 294912 327680 360448 393216 425984 458752 491520 -2147483648
MultMatrixx 69 :
GetFixedv 2982 0 : -481000 -554000 -627000 1015436000 -9000 -26000 -43000 -294996000 911000 1014000 1117000 -2147483648 2279000 2566000 2853000 -2147483648
PushMatrix :
LoadMatrixx 160 :
GetFixedv 2982 0 : 0 0 0 0 0 0 0 0 0 0 0 0 0 0 0 0
PopMatrix :
GetFixedv 2982 0 : -481000 -554000 -627000 1015436000 -9000 -26000 -43000 -294996000 911000 1014000 1117000 -2147483648 2279000 2566000 2853000 -2147483648
MatrixMode 5889 :
MultMatrixx 4 :
GetFixedv 2983 0 : 32768 65536 98304 -1 163840 196608 229376 262144 294912 327680 360448 393216 425984 458752 491520 -2147483648
LoadMatrixx 4294967295 :
GetFixedv 2983 0 : 0 0 0 0 0 0 0 0 0 0 0 0 0 0 0 0
MatrixMode 5890 :
ActiveTexture 33985 :
LoadMatrixx 69 :
GetFixedv 2984 0 : -40000 -39000 -36000 -31000 -24000 -15000 -4000 9000 24000 41000 60000 81000 104000 129000 156000 185000
ActiveTexture 33984 :
GetFixedv 2984 0 : 65536 0 0 0 0 65536 0 0 0 0 65536 0 0 0 0 65536
GetError : 0
";

#[test]
fn a_matrix_is_read_from_memory_by_columns(rt: HostRuntime) -> Result<(), Fail> {
    let mut memory = ClientMemory::new(rt.alloc(), 192)?;
    write_matrix(&mut memory, 4, &FIRST_MATRIX);
    write_matrix(&mut memory, 69, &SECOND_MATRIX);
    assert_eq!(rt; first_wrong_on(rt.alloc(), &memory, LOADED)?, None);
    Ok(())
}
