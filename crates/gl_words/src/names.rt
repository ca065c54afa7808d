//! The names of enumerants and their numbers. A name of a call is in `lookup.rt`.

ghost use Rattle.std.specs.Prelude.{◌≡◌, ℕ, IfSome, Some};
ghost use Rattle.std.specs.List.{Contains};
ghost use Rattle.gl_words.specs.Names.{names, number_named, AreGroups};
ghost use Rattle.gl_words.specs.Lookup.{seen_names, found_in};

use crate::lookup::of_length;

/// A name, without the prefix `GL_`, and its number: that of OpenGL ES 1.1.12; the choice of names is own.
pub struct Name(pub &'static str, pub u32);

/// The names with each length, from 0 bytes on, so that a word is compared with no name of another length.
static NAMES: [&[Name]; 35] = [
    &[],
    &[],
    &[Name("CW", 0x0900)],
    &[
        Name("ONE", 1),
        Name("CCW", 0x0901),
        Name("RGB", 0x1907),
        Name("ADD", 0x0104),
    ],
    &[
        Name("LESS", 0x0201),
        Name("ZERO", 0),
        Name("BACK", 0x0405),
        Name("BYTE", 0x1400),
        Name("RGBA", 0x1908),
        Name("FLAT", 0x1D00),
    ],
    &[
        Name("LINES", 1),
        Name("NEVER", 0x0200),
        Name("EQUAL", 0x0202),
        Name("FRONT", 0x0404),
        Name("BLEND", 0x0BE2),
        Name("SHORT", 0x1402),
        Name("FIXED", 0x140C),
        Name("ALPHA", 0x1906),
        Name("DECAL", 0x2101),
    ],
    &[
        Name("POINTS", 0),
        Name("LEQUAL", 0x0203),
        Name("GEQUAL", 0x0206),
        Name("ALWAYS", 0x0207),
        Name("DITHER", 0x0BD0),
        Name("SMOOTH", 0x1D01),
        Name("LINEAR", 0x2601),
        Name("REPEAT", 0x2901),
    ],
    &[
        Name("GREATER", 0x0204),
        Name("TEXTURE", 0x1702),
        Name("REPLACE", 0x1E01),
        Name("NEAREST", 0x2600),
    ],
    &[
        Name("NOTEQUAL", 0x0205),
        Name("MODULATE", 0x2100),
        Name("TEXTURE0", 0x84C0),
        Name("TEXTURE1", 0x84C1),
        Name("VIEWPORT", 0x0BA2),
    ],
    &[
        Name("LINE_LOOP", 2),
        Name("TRIANGLES", 4),
        Name("SRC_COLOR", 0x0300),
        Name("SRC_ALPHA", 0x0302),
        Name("DST_ALPHA", 0x0304),
        Name("DST_COLOR", 0x0306),
        Name("CULL_FACE", 0x0B44),
        Name("MODELVIEW", 0x1700),
        Name("LUMINANCE", 0x1909),
        Name("BLEND_DST", 0x0BE0),
        Name("BLEND_SRC", 0x0BE1),
    ],
    &[
        Name("LINE_STRIP", 3),
        Name("DEPTH_TEST", 0x0B71),
        Name("ALPHA_TEST", 0x0BC0),
        Name("TEXTURE_2D", 0x0DE1),
        Name("PROJECTION", 0x1701),
        Name("FRONT_FACE", 0x0B46),
        Name("DEPTH_FUNC", 0x0B74),
    ],
    &[
        Name("TEXTURE_ENV", 0x2300),
        Name("COLOR_ARRAY", 0x8076),
        Name("STATIC_DRAW", 0x88E4),
        Name("MATRIX_MODE", 0x0BA0),
        Name("SHADE_MODEL", 0x0B54),
        Name("SCISSOR_BOX", 0x0C10),
    ],
    &[
        Name("TRIANGLE_FAN", 6),
        Name("SCISSOR_TEST", 0x0C11),
        Name("VERTEX_ARRAY", 0x8074),
        Name("NORMAL_ARRAY", 0x8075),
        Name("ARRAY_BUFFER", 0x8892),
        Name("DYNAMIC_DRAW", 0x88E8),
    ],
    &[
        Name("UNSIGNED_BYTE", 0x1401),
        Name("CLAMP_TO_EDGE", 0x812F),
        Name("CURRENT_COLOR", 0x0B00),
    ],
    &[
        Name("TRIANGLE_STRIP", 5),
        Name("FRONT_AND_BACK", 0x0408),
        Name("UNSIGNED_SHORT", 0x1403),
        Name("TEXTURE_WRAP_S", 0x2802),
        Name("TEXTURE_WRAP_T", 0x2803),
        Name("PACK_ALIGNMENT", 0x0D05),
        Name("ACTIVE_TEXTURE", 0x84E0),
        Name("CULL_FACE_MODE", 0x0B45),
        Name("TEXTURE_MATRIX", 0x0BA8),
    ],
    &[
        Name("LUMINANCE_ALPHA", 0x190A),
        Name("ALPHA_TEST_FUNC", 0x0BC1),
    ],
    &[
        Name("DEPTH_BUFFER_BIT", 0x0100),
        Name("COLOR_BUFFER_BIT", 0x4000),
        Name("TEXTURE_ENV_MODE", 0x2200),
        Name("UNPACK_ALIGNMENT", 0x0CF5),
        Name("COLOR_ARRAY_SIZE", 0x8081),
        Name("COLOR_ARRAY_TYPE", 0x8082),
        Name("MAX_TEXTURE_SIZE", 0x0D33),
        Name("MODELVIEW_MATRIX", 0x0BA6),
    ],
    &[
        Name("TEXTURE_ENV_COLOR", 0x2201),
        Name("VERTEX_ARRAY_SIZE", 0x807A),
        Name("VERTEX_ARRAY_TYPE", 0x807B),
        Name("NORMAL_ARRAY_TYPE", 0x807E),
        Name("MAX_TEXTURE_UNITS", 0x84E2),
        Name("DEPTH_CLEAR_VALUE", 0x0B73),
        Name("PROJECTION_MATRIX", 0x0BA7),
        Name("COLOR_CLEAR_VALUE", 0x0C22),
    ],
    &[
        Name("STENCIL_BUFFER_BIT", 0x0400),
        Name("SRC_ALPHA_SATURATE", 0x0308),
        Name("TEXTURE_MAG_FILTER", 0x2800),
        Name("TEXTURE_MIN_FILTER", 0x2801),
        Name("COLOR_ARRAY_STRIDE", 0x8083),
        Name("TEXTURE_BINDING_2D", 0x8069),
    ],
    &[
        Name("ONE_MINUS_SRC_COLOR", 0x0301),
        Name("ONE_MINUS_SRC_ALPHA", 0x0303),
        Name("ONE_MINUS_DST_ALPHA", 0x0305),
        Name("ONE_MINUS_DST_COLOR", 0x0307),
        Name("TEXTURE_COORD_ARRAY", 0x8078),
        Name("TEXTURE_STACK_DEPTH", 0x0BA5),
        Name("VERTEX_ARRAY_STRIDE", 0x807C),
        Name("NORMAL_ARRAY_STRIDE", 0x807F),
        Name("COLOR_ARRAY_POINTER", 0x8090),
    ],
    &[
        Name("LINEAR_MIPMAP_LINEAR", 0x2703),
        Name("ELEMENT_ARRAY_BUFFER", 0x8893),
        Name("ARRAY_BUFFER_BINDING", 0x8894),
        Name("VERTEX_ARRAY_POINTER", 0x808E),
        Name("NORMAL_ARRAY_POINTER", 0x808F),
    ],
    &[
        Name("LINEAR_MIPMAP_NEAREST", 0x2701),
        Name("NEAREST_MIPMAP_LINEAR", 0x2702),
        Name("MODELVIEW_STACK_DEPTH", 0x0BA3),
        Name("CLIENT_ACTIVE_TEXTURE", 0x84E1),
    ],
    &[
        Name("NEAREST_MIPMAP_NEAREST", 0x2700),
        Name("PROJECTION_STACK_DEPTH", 0x0BA4),
    ],
    &[],
    &[
        Name("TEXTURE_COORD_ARRAY_SIZE", 0x8088),
        Name("TEXTURE_COORD_ARRAY_TYPE", 0x8089),
    ],
    &[],
    &[
        Name("TEXTURE_COORD_ARRAY_STRIDE", 0x808A),
        Name("COLOR_ARRAY_BUFFER_BINDING", 0x8898),
    ],
    &[
        Name("VERTEX_ARRAY_BUFFER_BINDING", 0x8896),
        Name("NORMAL_ARRAY_BUFFER_BINDING", 0x8897),
        Name("TEXTURE_COORD_ARRAY_POINTER", 0x8092),
    ],
    &[Name("ELEMENT_ARRAY_BUFFER_BINDING", 0x8895)],
    &[],
    &[],
    &[],
    &[],
    &[],
    &[Name("TEXTURE_COORD_ARRAY_BUFFER_BINDING", 0x889A)],
];

/// The number of an enumerant: that of OpenGL ES 1.1.12. None exactly where the table lacks the name.
pub fn number_of_enum(name: &str) -> Option<u32>
    ensures gives { result ≡ number_named name.now }
    ensures found { IfSome result (λ number. Contains names (name.now, number)) }
    ensures only { (number : ℕ) → Contains names (name.now, number) → result ≡ Some number }
{
    number_in(of_length(names_by_length(), name.len()), name)
}

/// The names by their lengths in bytes, from 0 on, each group in the order in which its names are compared; own.
pub fn names_by_length() -> &'static [&'static [Name]]
    ensures { AreGroups result.now }
{
    &NAMES
}

fn number_in(table: &[Name], name: &str) -> Option<u32>
    ensures { result ≡ found_in (seen_names table.now) name.now }
{
    for row in table {
        if row.0 == name {
            return Some(row.1);
        }
    }
    None
}
