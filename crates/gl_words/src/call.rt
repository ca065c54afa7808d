//! The calls, as values. What a call does is told by the driver, and not here.

/// A call with its arguments, spelled as in OpenGL ES 1.1.12 without the prefix `gl`.
#[derive(Clone, Copy, PartialEq, Eq)]
pub enum Call {
    /// Sets which texture unit is active, TEXTURE0 or TEXTURE1 (sections 2.7 and 3.7.12).
    ActiveTexture {
        texture: u32,
    },
    /// Sets which alphas pass the alpha test: a comparison, and the reference, 16.16 fixed (section 4.1.4).
    AlphaFuncx {
        func: u32,
        reference: i32,
    },
    /// Binds a buffer to ARRAY_BUFFER or ELEMENT_ARRAY_BUFFER, 0 for none (section 2.9).
    BindBuffer {
        target: u32,
        buffer: u32,
    },
    /// Binds a texture to TEXTURE_2D of the active unit, 0 for the default one (section 3.7.11).
    BindTexture {
        target: u32,
        texture: u32,
    },
    /// Sets by which factors source and destination are blended (section 4.1.7).
    BlendFunc {
        sfactor: u32,
        dfactor: u32,
    },
    /// Gives the buffer of a target new bytes: so many from client memory, or zeros where the address is 0 (section 2.9).
    BufferData {
        target: u32,
        size: i32,
        source: u32,
        usage: u32,
    },
    /// Writes so many bytes from client memory over those of the buffer of a target, from an offset on (section 2.9).
    BufferSubData {
        target: u32,
        offset: i32,
        size: i32,
        source: u32,
    },
    /// Clears the buffers named by the bits (section 4.2.3).
    Clear {
        mask: u32,
    },
    /// Sets the clear colour, 16.16 fixed (section 4.2.3).
    ClearColorx {
        red: i32,
        green: i32,
        blue: i32,
        alpha: i32,
    },
    /// Sets the depth that Clear writes, 16.16 fixed (section 4.2.3).
    ClearDepthx {
        depth: i32,
    },
    /// Sets which texture unit the calls of arrays speak of, TEXTURE0 or TEXTURE1 (sections 2.7 and 2.8).
    ClientActiveTexture {
        texture: u32,
    },
    /// Sets the current colour, 16.16 fixed (section 2.7).
    Color4x {
        red: i32,
        green: i32,
        blue: i32,
        alpha: i32,
    },
    /// Sets which parts of colours are written (section 4.2.2).
    ColorMask {
        red: bool,
        green: bool,
        blue: bool,
        alpha: bool,
    },
    /// Sets where the array of colours lies: its elements, and the bytes from one to the next (section 2.8).
    ColorPointer {
        size: i32,
        kind: u32,
        stride: i32,
        pointer: u32,
    },
    /// Sets which faces are culled: FRONT, BACK or FRONT_AND_BACK (section 3.5.1).
    CullFace {
        mode: u32,
    },
    /// Deletes the buffers whose names lie in client memory, so many (section 2.9).
    DeleteBuffers {
        n: i32,
        names: u32,
    },
    /// Deletes the textures whose names lie in client memory, so many (section 3.7.11).
    DeleteTextures {
        n: i32,
        names: u32,
    },
    /// Sets which depths pass the depth test: a comparison (section 4.1.6).
    DepthFunc {
        func: u32,
    },
    /// Sets whether depths are written (section 4.2.2).
    DepthMask {
        flag: bool,
    },
    /// Sets the depths of the near and the far plane in the window, 16.16 fixed (section 2.10.1).
    DepthRangex {
        near: i32,
        far: i32,
    },
    /// Switches a capability off (chapters 2 to 4).
    Disable {
        cap: u32,
    },
    /// Switches an array off (section 2.8).
    DisableClientState {
        array: u32,
    },
    /// Draws primitives from consecutive elements of the arrays that are on: which ones, the first element's index, and how
    /// many elements (section 2.8).
    DrawArrays {
        mode: u32,
        first: i32,
        count: i32,
    },
    /// Draws primitives from the elements that indices name: how many, their type, and where they lie, in client memory or in
    /// the buffer that is bound for them (sections 2.8 and 2.9).
    DrawElements {
        mode: u32,
        count: i32,
        kind: u32,
        indices: u32,
    },
    /// Switches a capability on (chapters 2 to 4).
    Enable {
        cap: u32,
    },
    /// Switches an array on (section 2.8).
    EnableClientState {
        array: u32,
    },
    /// Waits until all calls were carried out (section 5.1).
    Finish,
    /// Sends all calls on their way (section 5.1).
    Flush,
    /// Sets which faces are front ones: those wound CW or CCW (section 2.12.1).
    FrontFace {
        mode: u32,
    },
    /// Multiplies the current matrix by a perspective projection, 16.16 fixed (section 2.10.2).
    Frustumx {
        left: i32,
        right: i32,
        bottom: i32,
        top: i32,
        near: i32,
        far: i32,
    },
    /// Asks for so many names of buffers that are in use nowhere, which are written to client memory (section 2.9).
    GenBuffers {
        n: i32,
        names: u32,
    },
    /// Asks for so many names of textures that are in use nowhere, which are written to client memory (section 3.7.11).
    GenTextures {
        n: i32,
        names: u32,
    },
    /// Asks for the recorded error, which is forgotten (section 2.5).
    GetError,
    /// Asks for state as 16.16 fixed numbers, which are written to client memory (section 6.1).
    GetFixedv {
        pname: u32,
        params: u32,
    },
    /// Asks for state as integers, which are written to client memory (section 6.1).
    GetIntegerv {
        pname: u32,
        params: u32,
    },
    /// Asks where an array lies; the address is written to client memory (section 6.1).
    GetPointerv {
        pname: u32,
        params: u32,
    },
    /// Asks whether a name is that of a buffer (section 6.1.6).
    IsBuffer {
        buffer: u32,
    },
    /// Asks whether a capability or an array is switched on (section 6.1).
    IsEnabled {
        cap: u32,
    },
    /// Asks whether a name is that of a texture (section 6.1.4).
    IsTexture {
        texture: u32,
    },
    /// Sets the current matrix to the identity (section 2.10.2).
    LoadIdentity,
    /// Replaces the current matrix by the sixteen numbers in client memory, 16.16 fixed, column by column (section 2.10.2).
    LoadMatrixx {
        matrix: u32,
    },
    /// Sets which stack of matrices is current: MODELVIEW, PROJECTION or TEXTURE (section 2.10.2).
    MatrixMode {
        mode: u32,
    },
    /// Multiplies the current matrix by the sixteen numbers in client memory, 16.16 fixed, column by column (section 2.10.2).
    MultMatrixx {
        matrix: u32,
    },
    /// Sets the current texture coordinates of a unit, TEXTURE0 or TEXTURE1, 16.16 fixed (section 2.7).
    MultiTexCoord4x {
        target: u32,
        s: i32,
        t: i32,
        r: i32,
        q: i32,
    },
    /// Sets the current normal, 16.16 fixed (section 2.7).
    Normal3x {
        nx: i32,
        ny: i32,
        nz: i32,
    },
    /// Sets where the array of normals lies: its elements, and the bytes from one to the next (section 2.8).
    NormalPointer {
        kind: u32,
        stride: i32,
        pointer: u32,
    },
    /// Multiplies the current matrix by a parallel projection, 16.16 fixed (section 2.10.2).
    Orthox {
        left: i32,
        right: i32,
        bottom: i32,
        top: i32,
        near: i32,
        far: i32,
    },
    /// Sets on how many bytes rows of pixels begin in client memory (section 3.6.1).
    PixelStorei {
        pname: u32,
        param: i32,
    },
    /// Takes the top matrix off the current stack (section 2.10.2).
    PopMatrix,
    /// Puts a copy of the current matrix on the current stack (section 2.10.2).
    PushMatrix,
    /// Asks for the pixels of a rectangle, which are written to client memory (section 4.3.1).
    ReadPixels {
        x: i32,
        y: i32,
        width: i32,
        height: i32,
        format: u32,
        kind: u32,
        pixels: u32,
    },
    /// Multiplies the current matrix by a rotation, in degrees round an axis, 16.16 fixed (section 2.10.2).
    Rotatex {
        angle: i32,
        x: i32,
        y: i32,
        z: i32,
    },
    /// Multiplies the current matrix by a scaling, 16.16 fixed (section 2.10.2).
    Scalex {
        x: i32,
        y: i32,
        z: i32,
    },
    /// Sets the rectangle of the window outside which the scissor test lets nothing pass, in pixels (section 4.1.2).
    Scissor {
        x: i32,
        y: i32,
        width: i32,
        height: i32,
    },
    /// Sets whether a triangle has one colour or those of its corners: FLAT or SMOOTH (section 2.12.7).
    ShadeModel {
        mode: u32,
    },
    /// Sets where the client unit's array of texture coordinates lies: its elements, and the bytes from one to the next (section 2.8).
    TexCoordPointer {
        size: i32,
        kind: u32,
        stride: i32,
        pointer: u32,
    },
    /// Sets how the active unit combines a texel with the colour: ADD, BLEND, DECAL, MODULATE or REPLACE (section 3.7.12).
    TexEnvi {
        target: u32,
        pname: u32,
        param: i32,
    },
    /// Sets the constant colour of the active unit: four numbers in client memory, 16.16 fixed (section 3.7.12).
    TexEnvxv {
        target: u32,
        pname: u32,
        params: u32,
    },
    /// Gives the texture of the active unit a new image: its format, its sides in texels, and its bytes in client memory, or
    /// zeros where the address is 0 (section 3.7.1).
    TexImage2D {
        target: u32,
        level: i32,
        internalformat: i32,
        width: i32,
        height: i32,
        border: i32,
        format: u32,
        kind: u32,
        pixels: u32,
    },
    /// Sets how the texture of the active unit is looked up: a filter, or how coordinates wrap (section 3.7.4).
    TexParameteri {
        target: u32,
        pname: u32,
        param: i32,
    },
    /// Writes a rectangle of texels from client memory over those of the image of the active unit's texture (section 3.7.2).
    TexSubImage2D {
        target: u32,
        level: i32,
        xoffset: i32,
        yoffset: i32,
        width: i32,
        height: i32,
        format: u32,
        kind: u32,
        pixels: u32,
    },
    /// Multiplies the current matrix by a translation, 16.16 fixed (section 2.10.2).
    Translatex {
        x: i32,
        y: i32,
        z: i32,
    },
    /// Sets where the array of vertices lies: its elements, and the bytes from one to the next (section 2.8).
    VertexPointer {
        size: i32,
        kind: u32,
        stride: i32,
        pointer: u32,
    },
    /// Sets the rectangle of the window that is drawn to, in pixels (section 2.10.1).
    Viewport {
        x: i32,
        y: i32,
        width: i32,
        height: i32,
    },
}
