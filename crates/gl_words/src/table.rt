//! The table of calls: a row a call, which stands here once. What a row means is told in `specs/Call.antt`, and how
//! arguments are read and made in `arguments.rt` and `making.rt`.

ghost use Rattle.std.specs.Prelude.{◌≡◌, MatchOption, Some, None, length, ◌≤◌};
ghost use Rattle.gl_words.specs.Call.{id_of, name_of, is_answering, IsInRange};
ghost use Rattle.gl_words.specs.CallOf.{call_numbered};
ghost use Rattle.gl_words.specs.Table.{told, told_by, IsTable, IsRowOf};
ghost use Rattle.gl_words.specs.declared.call.Call.{Call};

use crate::call::Call;
use crate::shape::ArgKind;

/// Hands each row to another macro: the part of the table in which it stands (`asks` for calls that are answered, `does`
/// for the others), the number, the name, and each argument with its kind.
macro_rules! rows {
    ($then:ident($($given:tt)*)) => {
        $then! { ($($given)*)
            does 1 ActiveTexture { texture: Enum };
            does 2 AlphaFuncx { func: Enum, reference: Fixed };
            does 3 BindBuffer { target: Enum, buffer: Unsigned };
            does 4 BindTexture { target: Enum, texture: Unsigned };
            does 5 BlendFunc { sfactor: Enum, dfactor: Enum };
            does 6 BufferData { target: Enum, size: Int, source: Pointer, usage: Enum };
            does 7 BufferSubData { target: Enum, offset: Int, size: Int, source: Pointer };
            does 8 Clear { mask: Unsigned };
            does 9 ClearColorx { red: Fixed, green: Fixed, blue: Fixed, alpha: Fixed };
            does 10 ClearDepthx { depth: Fixed };
            does 11 ClientActiveTexture { texture: Enum };
            does 12 Color4x { red: Fixed, green: Fixed, blue: Fixed, alpha: Fixed };
            does 13 ColorMask { red: Bool, green: Bool, blue: Bool, alpha: Bool };
            does 14 ColorPointer { size: Int, kind: Enum, stride: Int, pointer: Pointer };
            does 15 CullFace { mode: Enum };
            does 16 DeleteBuffers { n: Int, names: Pointer };
            does 17 DeleteTextures { n: Int, names: Pointer };
            does 18 DepthFunc { func: Enum };
            does 19 DepthMask { flag: Bool };
            does 20 DepthRangex { near: Fixed, far: Fixed };
            does 21 Disable { cap: Enum };
            does 22 DisableClientState { array: Enum };
            does 23 DrawArrays { mode: Enum, first: Int, count: Int };
            does 24 DrawElements { mode: Enum, count: Int, kind: Enum, indices: Pointer };
            does 25 Enable { cap: Enum };
            does 26 EnableClientState { array: Enum };
            does 27 Finish {};
            does 28 Flush {};
            does 29 FrontFace { mode: Enum };
            does 30 Frustumx { left: Fixed, right: Fixed, bottom: Fixed, top: Fixed, near: Fixed, far: Fixed };
            asks 31 GenBuffers { n: Int, names: Pointer };
            asks 32 GenTextures { n: Int, names: Pointer };
            asks 33 GetError {};
            asks 34 GetFixedv { pname: Enum, params: Pointer };
            asks 35 GetIntegerv { pname: Enum, params: Pointer };
            asks 36 GetPointerv { pname: Enum, params: Pointer };
            asks 37 IsBuffer { buffer: Unsigned };
            asks 38 IsEnabled { cap: Enum };
            asks 39 IsTexture { texture: Unsigned };
            does 40 LoadIdentity {};
            does 41 LoadMatrixx { matrix: Pointer };
            does 42 MatrixMode { mode: Enum };
            does 43 MultMatrixx { matrix: Pointer };
            does 44 MultiTexCoord4x { target: Enum, s: Fixed, t: Fixed, r: Fixed, q: Fixed };
            does 45 Normal3x { nx: Fixed, ny: Fixed, nz: Fixed };
            does 46 NormalPointer { kind: Enum, stride: Int, pointer: Pointer };
            does 47 Orthox { left: Fixed, right: Fixed, bottom: Fixed, top: Fixed, near: Fixed, far: Fixed };
            does 48 PixelStorei { pname: Enum, param: Int };
            does 49 PopMatrix {};
            does 50 PushMatrix {};
            asks 51 ReadPixels { x: Int, y: Int, width: Int, height: Int, format: Enum, kind: Enum, pixels: Pointer };
            does 52 Rotatex { angle: Fixed, x: Fixed, y: Fixed, z: Fixed };
            does 53 Scalex { x: Fixed, y: Fixed, z: Fixed };
            does 54 Scissor { x: Int, y: Int, width: Int, height: Int };
            does 55 ShadeModel { mode: Enum };
            does 56 TexCoordPointer { size: Int, kind: Enum, stride: Int, pointer: Pointer };
            does 57 TexEnvi { target: Enum, pname: Enum, param: Int };
            does 58 TexEnvxv { target: Enum, pname: Enum, params: Pointer };
            does 59 TexImage2D { target: Enum, level: Int, internalformat: Int, width: Int, height: Int, border: Int, format: Enum, kind: Enum, pixels: Pointer };
            does 60 TexParameteri { target: Enum, pname: Enum, param: Int };
            does 61 TexSubImage2D { target: Enum, level: Int, xoffset: Int, yoffset: Int, width: Int, height: Int, format: Enum, kind: Enum, pixels: Pointer };
            does 62 Translatex { x: Fixed, y: Fixed, z: Fixed };
            does 63 VertexPointer { size: Int, kind: Enum, stride: Int, pointer: Pointer };
            does 64 Viewport { x: Int, y: Int, width: Int, height: Int };
        }
    };
}

pub(crate) use rows;

/// A row of the table of calls: the number (own), the name of OpenGL ES 1.1.12 without the prefix `gl`, the kind of each
/// argument in order, and whether the call is answered (sections 2.5, 4.3.1 and 6.1).
pub struct TableRow {
    pub id: u16,
    pub name: &'static str,
    pub kinds: &'static [ArgKind],
    pub answering: bool,
    /// The row's call whose arguments are 0.
    pub(crate) call: Call,
}

macro_rules! is_asking {
    (does) => { false };
    (asks) => { true };
}

macro_rules! zero {
    (Bool) => { false };
    ($kind:ident) => { 0 };
}

macro_rules! row {
    ($part:ident $id:literal $name:ident { $($field:ident: $kind:ident),* }) => {
        Some(TableRow {
            id: $id,
            name: stringify!($name),
            kinds: &[$(ArgKind::$kind),*],
            answering: is_asking!($part),
            call: Call::$name { $($field: zero!($kind)),* },
        })
    };
}

macro_rules! listed {
    (() $($part:ident $id:literal $name:ident { $($field:ident: $kind:ident),* };)*) => {
        [None, $(row!($part $id $name { $($field: $kind),* })),*]
    };
}

/// A row stands at the place of its number; no call has the number 0.
static ROWS: [Option<TableRow>; 65] = rows!(listed());

/// The rows, each at the place of its number.
pub(crate) fn table() -> &'static [Option<TableRow>]
    ensures { IsTable result.now }
{
    &ROWS
}

/// The row with this number; own. None exactly where no call has the number.
pub fn row_numbered(id: u16) -> Option<&'static TableRow>
    ensures { MatchOption result (call_numbered id ≡ None)
        (λ row. (call : Call) × (call_numbered id ≡ Some call) × (told_by row.now ≡ told call)) }
{
    row_in(table(), id)
}

fn row_in<'a>(rows: &'a [Option<TableRow>], id: u16) -> Option<&'a TableRow>
    requires { IsTable rows.now }
    ensures { MatchOption result (call_numbered id ≡ None)
        (λ row. (call : Call) × (call_numbered id ≡ Some call) × (told_by row.now ≡ told call)) }
{
    match rows.get(usize::from(id)) {
        Some(Some(row)) => Some(row),
        Some(None) => None,
        None => None,
    }
}

macro_rules! numbers {
    (($call:ident) $($part:ident $id:literal $name:ident { $($field:ident: $kind:ident),* };)*) => {
        match &$call {
            $(Call::$name { $($field),* } => {
                $(let _read = *$field;)*
                $id
            })*
        }
    };
}

#[tactic(auto, unfolding(crate::specs::Call::row_of, crate::specs::Call::id_of, crate::specs::Call::IsInRange, crate::specs::Call::kinds_of, crate::specs::Call::arguments))]
fn number_of(call: Call) -> u16
    ensures gives { result ≡ id_of call }
    ensures in_range { IsInRange call }
{
    rows!(numbers(call))
}

/// The number of a call in the table of calls; own. Whoever asks for it knows that the arguments are in range.
pub fn call_id(call: &Call) -> u16
    ensures gives { result ≡ id_of call.now }
    ensures in_range { IsInRange call.now }
{
    number_of(*call)
}

/// The row of a call, found without a search. Whoever asks for it knows that the arguments are in range, and at most 9.
pub fn row_of(call: &Call) -> &'static TableRow
    ensures row { IsRowOf result.now call.now }
    ensures few { length result.now.kinds.now ≤ 9 }
    ensures in_range { IsInRange call.now }
{
    match row_numbered(call_id(call)) {
        Some(row) => row,
        None => unreachable!(),
    }
}

/// The name of a call, without the prefix `gl`.
pub fn call_name(call: &Call) -> &'static str
    ensures { result.now ≡ name_of call.now }
{
    row_of(call).name
}

/// Whether a call is answered (sections 2.5, 4.3.1 and 6.1). Whoever asks knows that its arguments are in range.
pub fn is_answering(call: &Call) -> bool
    ensures gives { result ≡ is_answering call.now }
    ensures in_range { IsInRange call.now }
{
    row_of(call).answering
}
