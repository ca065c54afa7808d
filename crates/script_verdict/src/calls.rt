//! Calls by their names: those that a script may write, from the table of calls, and those of OpenGL ES 1.1.12 beside them.

use gl_words::{TableRow, row_numbered};

/// The names of the calls that this profile leaves out, without the prefix `gl`, in the order of the alphabet (chapters 2 to 6).
static LEFT_OUT: [&str; 81] = [
    "AlphaFunc",
    "ClearColor",
    "ClearDepthf",
    "ClearStencil",
    "ClipPlanef",
    "ClipPlanex",
    "Color4f",
    "Color4ub",
    "CompressedTexImage2D",
    "CompressedTexSubImage2D",
    "CopyTexImage2D",
    "CopyTexSubImage2D",
    "DepthRangef",
    "Fogf",
    "Fogfv",
    "Fogx",
    "Fogxv",
    "Frustumf",
    "GetBooleanv",
    "GetBufferParameteriv",
    "GetClipPlanef",
    "GetClipPlanex",
    "GetFloatv",
    "GetLightfv",
    "GetLightxv",
    "GetMaterialfv",
    "GetMaterialxv",
    "GetString",
    "GetTexEnvfv",
    "GetTexEnviv",
    "GetTexEnvxv",
    "GetTexParameterfv",
    "GetTexParameteriv",
    "GetTexParameterxv",
    "Hint",
    "LightModelf",
    "LightModelfv",
    "LightModelx",
    "LightModelxv",
    "Lightf",
    "Lightfv",
    "Lightx",
    "Lightxv",
    "LineWidth",
    "LineWidthx",
    "LoadMatrixf",
    "LogicOp",
    "Materialf",
    "Materialfv",
    "Materialx",
    "Materialxv",
    "MultMatrixf",
    "MultiTexCoord4f",
    "Normal3f",
    "Orthof",
    "PointParameterf",
    "PointParameterfv",
    "PointParameterx",
    "PointParameterxv",
    "PointSize",
    "PointSizePointerOES",
    "PointSizex",
    "PolygonOffset",
    "PolygonOffsetx",
    "Rotatef",
    "SampleCoverage",
    "SampleCoveragex",
    "Scalef",
    "StencilFunc",
    "StencilMask",
    "StencilOp",
    "TexEnvf",
    "TexEnvfv",
    "TexEnviv",
    "TexEnvx",
    "TexParameterf",
    "TexParameterfv",
    "TexParameteriv",
    "TexParameterx",
    "TexParameterxv",
    "Translatef",
];

/// The row of the call that a script may write by this name.
pub(crate) fn row_named(name: &[u8]) -> Option<&'static TableRow> {
    for id in 1..=u16::MAX {
        let row = row_numbered(id)?;
        if row.name.as_bytes() == name {
            return Some(row);
        }
    }
    None
}

/// Whether a word is the name of a call that a script may write.
pub(crate) fn is_call(word: &str) -> bool {
    row_named(word.as_bytes()).is_some()
}

/// Whether a word is the name of a call of OpenGL ES that this profile leaves out.
pub(crate) fn is_left_out(word: &str) -> bool {
    LEFT_OUT.iter().any(|name| *name == word)
}
