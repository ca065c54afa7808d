//! What no clause says: that calls and names are found at all, against numbers from outside.

use gl_words::{
    Call, GlError, arg_at, arguments_of, call_from, call_id, call_in, call_law, call_name,
    is_answering, low_bits, number_of_enum, row_of, shape_of_name,
};
use std::process::Abort;
use std::test::Fail;

/// Each name with its number, arguments that such a call may have, and whether it is answered.
static CALLS: [(&str, u16, &[i64], bool); 64] = [
    ("ActiveTexture", 1, &[0x84C1], false),
    ("AlphaFuncx", 2, &[0x0204, -65536], false),
    ("BindBuffer", 3, &[0x8892, 4294967295], false),
    ("BindTexture", 4, &[0x0DE1, 7], false),
    ("BlendFunc", 5, &[0x0302, 0x0303], false),
    ("BufferData", 6, &[0x8893, -1, 4294967295, 0x88E8], false),
    ("BufferSubData", 7, &[0x8892, -2147483648, 3, 5], false),
    ("Clear", 8, &[16384], false),
    (
        "ClearColorx",
        9,
        &[65536, -1, 2147483647, -2147483648],
        false,
    ),
    ("ClearDepthx", 10, &[-2147483648], false),
    ("ClientActiveTexture", 11, &[0x84C0], false),
    ("Color4x", 12, &[65536, -1, 2147483647, -2147483648], false),
    ("ColorMask", 13, &[1, 0, 0, 1], false),
    ("ColorPointer", 14, &[4, 0x1401, -1, 4294967295], false),
    ("CullFace", 15, &[0x0408], false),
    ("DeleteBuffers", 16, &[-1, 4294967295], false),
    ("DeleteTextures", 17, &[256, 8], false),
    ("DepthFunc", 18, &[0x0203], false),
    ("DepthMask", 19, &[1], false),
    ("DepthRangex", 20, &[65536, -1], false),
    ("Disable", 21, &[0x0BD0], false),
    ("DisableClientState", 22, &[0x8076], false),
    ("DrawArrays", 23, &[4, -1, 2147483647], false),
    (
        "DrawElements",
        24,
        &[6, 2147483647, 0x1403, 4294967295],
        false,
    ),
    ("Enable", 25, &[4294967295], false),
    ("EnableClientState", 26, &[0x8078], false),
    ("Finish", 27, &[], false),
    ("Flush", 28, &[], false),
    ("FrontFace", 29, &[0x0900], false),
    ("Frustumx", 30, &[1, 2, 3, 4, 5, 6], false),
    ("GenBuffers", 31, &[2, 4], true),
    ("GenTextures", 32, &[-2147483648, 0], true),
    ("GetError", 33, &[], true),
    ("GetFixedv", 34, &[0x0B00, 16], true),
    ("GetIntegerv", 35, &[0x0BA2, 4294967295], true),
    ("GetPointerv", 36, &[0x808E, 8], true),
    ("IsBuffer", 37, &[4294967295], true),
    ("IsEnabled", 38, &[0x0B71], true),
    ("IsTexture", 39, &[0], true),
    ("LoadIdentity", 40, &[], false),
    ("LoadMatrixx", 41, &[64], false),
    ("MatrixMode", 42, &[0x1701], false),
    ("MultMatrixx", 43, &[4294967295], false),
    ("MultiTexCoord4x", 44, &[0x84C1, 1, -2, 3, -4], false),
    ("Normal3x", 45, &[-1, 2, -3], false),
    ("NormalPointer", 46, &[0x1400, 2147483647, 12], false),
    ("Orthox", 47, &[-1, -2, -3, -4, -5, -6], false),
    ("PixelStorei", 48, &[0x0D05, -8], false),
    ("PopMatrix", 49, &[], false),
    ("PushMatrix", 50, &[], false),
    (
        "ReadPixels",
        51,
        &[-1, -2, 3, 4, 0x1908, 0x1401, 1024],
        true,
    ),
    ("Rotatex", 52, &[1, 2, 3, 4], false),
    ("Scalex", 53, &[1, 2, 3], false),
    ("Scissor", 54, &[-1, -2, 3, 4], false),
    ("ShadeModel", 55, &[0x1D00], false),
    ("TexCoordPointer", 56, &[2, 0x140C, 8, 3], false),
    ("TexEnvi", 57, &[0x2300, 0x2200, -2147483648], false),
    ("TexEnvxv", 58, &[0x2300, 0x2201, 4294967295], false),
    (
        "TexImage2D",
        59,
        &[0x0DE1, -1, 0x1907, -2, 4, -5, 0x1907, 0x1401, 4294967295],
        false,
    ),
    ("TexParameteri", 60, &[0x0DE1, 0x2802, -1], false),
    (
        "TexSubImage2D",
        61,
        &[0x0DE1, -1, -2, 3, -4, 5, 0x1908, 0x1401, 8],
        false,
    ),
    ("Translatex", 62, &[1, 2, 3], false),
    ("VertexPointer", 63, &[3, 0x1402, 0, 4294967294], false),
    ("Viewport", 64, &[-1, -2, 3, 4], false),
];

#[test]
fn each_call_of_the_table_is_found_by_its_name_and_its_number(rt: HostRuntime) {
    for (name, id, numbers, answered) in &CALLS {
        is_found(&rt, name, *id, numbers, *answered);
    }
    call_law();
}

/// The name has this number, and the call that is made of it and the arguments has them.
fn is_found(rt: &impl Abort, name: &str, id: u16, numbers: &[i64], answered: bool) {
    let Some(shape) = shape_of_name(name) else {
        panic!(rt; "no call has the name {name}");
    };
    assert_eq!(rt; shape.id, id);
    let Some(call) = call_from(id, numbers) else {
        panic!(rt; "no call has the number {id}");
    };
    assert_eq!(rt; shape.call(numbers), Some(call));
    assert_eq!(rt; call_name(&call), name);
    assert_eq!(rt; call_id(&call), id);
    assert_eq!(rt; is_answering(&call), answered);
    let row = row_of(&call);
    assert_eq!(rt; (row.id, row.name, row.answering), (id, name, answered));
    assert_eq!(rt; row.kinds.len(), numbers.len());
    assert_eq!(rt; arguments_of(&call).as_slice(), numbers);
    if 0 < row.kinds.len() {
        assert_eq!(rt; Some(&arg_at(&call, 0)), numbers.first());
    }
}

#[test]
fn a_call_prints_as_a_script_spells_it(rt: HostRuntime) -> Result<(), Fail> {
    let slots = [0x0D05, 0xFFFF_FFFF_FFFF_FFF8, 1];
    let (call, behind) = call_in(48, &slots).ok_or("none")?;
    assert_eq!(rt; behind, [1].as_slice());
    let read = Call::ReadPixels {
        x: -1,
        y: -2,
        width: 3,
        height: 4,
        format: 0x1908,
        kind: 0x1401,
        pixels: 1024,
    };
    let rows = [
        (call, "PixelStorei 3333 -8"),
        (read, "ReadPixels -1 -2 3 4 6408 5121 1024"),
        (Call::Finish, "Finish"),
    ];
    for (call, spelled) in &rows {
        assert_eq!(rt; format!(in rt.alloc(); "{call:?}")?.as_str(), *spelled);
    }
    Ok(())
}

// Worked by hand.
#[test]
fn the_low_bits_of_a_number_are_those_of_its_complement(rt: HostRuntime) {
    let rows = [
        (7, 7),
        (0x1_0000_0007, 7),
        (-1, 0xFFFF_FFFF),
        (-0x1_0000_0000, 0),
    ];
    for (number, bits) in rows {
        assert_eq!(rt; low_bits(number), bits);
    }
}

#[test]
fn arguments_are_read_up_to_the_ends_of_their_ranges(rt: HostRuntime) {
    let rows = [
        (46, [0x1400, -2147483648, 4294967295].as_slice(), true),
        (46, [-1, 0, 0].as_slice(), false),
        (46, [0x1400, 2147483648, 0].as_slice(), false),
        (46, [0x1400, -2147483649, 0].as_slice(), false),
        (46, [0x1400, 0, 4294967296].as_slice(), false),
        (46, [0x1400, 0].as_slice(), false),
        (46, [0x1400, 0, 0, 0].as_slice(), false),
        (13, [0, 1, 2, 0].as_slice(), false),
        (13, [0, 1, -1, 0].as_slice(), false),
        (33, [0].as_slice(), false),
        (0, [].as_slice(), false),
        (65, [].as_slice(), false),
    ];
    for (id, numbers, found) in rows {
        assert_eq!(rt; call_from(id, numbers).is_some(), found);
    }
}

// The numbers are those of the header `GLES/gl.h`.
#[test]
fn names_are_found_as_they_are_spelled(rt: HostRuntime) {
    let names = [
        ("POINTS", Some(0)),
        ("COLOR_BUFFER_BIT", Some(0x4000)),
        ("CLAMP_TO_EDGE", Some(0x812F)),
        ("TEXTURE_COORD_ARRAY_BUFFER_BINDING", Some(0x889A)),
        ("TEXTURE_COORD_ARRAY_POINTER", Some(0x8092)),
        ("points", None),
        ("POINT", None),
        ("TRUE", None),
        ("", None),
    ];
    for (name, number) in &names {
        assert_eq!(rt; number_of_enum(name), *number);
    }
    assert!(rt; shape_of_name("clear").is_none());
}

#[test]
fn errors_have_their_numbers(rt: HostRuntime) {
    assert_eq!(rt; GlError::InvalidEnum.code(), 1280);
    assert_eq!(rt; GlError::OutOfMemory.code(), 1285);
}
