//! Draws into a small frame, and their pictures, which are those of another program. Names stand as their numbers.

/// A draw into a frame of five columns and four rows, and what the frame is then.
#[derive(Clone, Copy)]
pub(crate) struct Case {
    pub mode: u32,
    pub first: u16,
    pub count: u16,
    pub enabled: bool,
    pub is_smooth: bool,
    pub culls: bool,
    pub cull_face: u32,
    pub front_face: u32,
    /// In quarters.
    pub range: [u8; 2],
    /// A corner and sides.
    pub view: ([i8; 2], [u8; 2]),
    pub scissor_on: bool,
    pub scissor: ([i8; 2], [u8; 2]),
    pub depth_on: bool,
    /// In quarters.
    pub clear_depth: u8,
    /// By ONE and ONE.
    pub blend_on: bool,
    /// Red, green and blue, the rows from the top.
    pub picture: [u32; 20],
}

/// All six vertices as two triangles, whose picture is empty, in the state of a context at the start.
pub(crate) const PLAIN: Case = Case {
    mode: 4,
    first: 0,
    count: 6,
    enabled: true,
    is_smooth: true,
    culls: false,
    cull_face: 0x405,
    front_face: 0x901,
    range: [0, 4],
    view: ([0, 0], [5, 4]),
    scissor_on: false,
    scissor: ([0, 0], [5, 4]),
    depth_on: false,
    clear_depth: 4,
    blend_on: false,
    picture: [0; 20],
};

pub(crate) const CASES: [Case; 28] = [
    // Two triangles, and their last vertices.
    Case {
        mode: 4,
        picture: [
            0x000000, 0x000000, 0x000000, 0x000000, 0x000000, 0x000000, 0x2238A6, 0x000000,
            0x000000, 0x000000, 0xA50555, 0x664159, 0x267C5D, 0x000000, 0x000000, 0xE80E09,
            0xA94A0C, 0x6A8510, 0x2BC113, 0x000000,
        ],
        ..PLAIN
    },
    // A strip, flat.
    Case {
        mode: 5,
        is_smooth: false,
        picture: [
            0x000000, 0xFFFF00, 0xFFFF00, 0x00FFFF, 0x00FFFF, 0x000000, 0x0000FF, 0xFFFF00,
            0xFFFF00, 0xFFFF00, 0x0000FF, 0x0000FF, 0x0000FF, 0xFFFF00, 0xFFFF00, 0x0000FF,
            0x0000FF, 0x0000FF, 0x0000FF, 0xFFFF00,
        ],
        ..PLAIN
    },
    // A strip, smooth.
    Case {
        mode: 5,
        picture: [
            0x000000, 0x2531CE, 0x6A708F, 0xADAF52, 0xD6E929, 0x000000, 0x2238A6, 0x20758A,
            0x66B44B, 0xABF40B, 0xA50555, 0x664159, 0x267C5D, 0x1BB946, 0x61F906, 0xE80E09,
            0xA94A0C, 0x6A8510, 0x2BC113, 0x16FE01,
        ],
        ..PLAIN
    },
    // A fan.
    Case {
        mode: 6,
        picture: [
            0x000000, 0xA92F1B, 0x865E50, 0x638D85, 0x41BCBB, 0x000000, 0xB73328, 0x94625D,
            0x000000, 0x000000, 0xAF0550, 0xC43734, 0x267C5D, 0x000000, 0x000000, 0xE80E09,
            0xA94A0C, 0x6A8510, 0x2BC113, 0x000000,
        ],
        ..PLAIN
    },
    // A fan, flat.
    Case {
        mode: 6,
        is_smooth: false,
        picture: [
            0x000000, 0x804020, 0x804020, 0x804020, 0x804020, 0x000000, 0x804020, 0x804020,
            0x000000, 0x000000, 0xFFFF00, 0x804020, 0x0000FF, 0x000000, 0x000000, 0x0000FF,
            0x0000FF, 0x0000FF, 0x0000FF, 0x000000,
        ],
        ..PLAIN
    },
    // A vertex of a third triangle is left over.
    Case {
        mode: 4,
        count: 5,
        picture: [
            0x000000, 0x000000, 0x000000, 0x000000, 0x000000, 0x000000, 0x2238A6, 0x000000,
            0x000000, 0x000000, 0xA50555, 0x664159, 0x267C5D, 0x000000, 0x000000, 0xE80E09,
            0xA94A0C, 0x6A8510, 0x2BC113, 0x000000,
        ],
        ..PLAIN
    },
    // From the second vertex on.
    Case {
        mode: 5,
        first: 1,
        count: 4,
        is_smooth: false,
        picture: [
            0x000000, 0xFFFF00, 0xFFFF00, 0x00FFFF, 0x00FFFF, 0x000000, 0x000000, 0xFFFF00,
            0xFFFF00, 0xFFFF00, 0x000000, 0x000000, 0x000000, 0xFFFF00, 0xFFFF00, 0x000000,
            0x000000, 0x000000, 0x000000, 0xFFFF00,
        ],
        ..PLAIN
    },
    // Backs are culled.
    Case {
        mode: 6,
        is_smooth: false,
        culls: true,
        cull_face: 0x405,
        picture: [
            0x000000, 0x804020, 0x804020, 0x804020, 0x804020, 0x000000, 0x804020, 0x804020,
            0x000000, 0x000000, 0x0000FF, 0x804020, 0x0000FF, 0x000000, 0x000000, 0x0000FF,
            0x0000FF, 0x0000FF, 0x0000FF, 0x000000,
        ],
        ..PLAIN
    },
    // Fronts are culled.
    Case {
        mode: 6,
        is_smooth: false,
        culls: true,
        cull_face: 0x404,
        picture: [
            0x000000, 0xFFFF00, 0xFFFF00, 0x000000, 0x000000, 0x000000, 0xFFFF00, 0xFFFF00,
            0x000000, 0x000000, 0xFFFF00, 0xFFFF00, 0x000000, 0x000000, 0x000000, 0x000000,
            0x000000, 0x000000, 0x000000, 0x000000,
        ],
        ..PLAIN
    },
    // Backs are culled, and fronts run clockwise.
    Case {
        mode: 6,
        is_smooth: false,
        culls: true,
        cull_face: 0x405,
        front_face: 0x900,
        picture: [
            0x000000, 0xFFFF00, 0xFFFF00, 0x000000, 0x000000, 0x000000, 0xFFFF00, 0xFFFF00,
            0x000000, 0x000000, 0xFFFF00, 0xFFFF00, 0x000000, 0x000000, 0x000000, 0x000000,
            0x000000, 0x000000, 0x000000, 0x000000,
        ],
        ..PLAIN
    },
    // Fronts are culled, and run clockwise.
    Case {
        mode: 6,
        is_smooth: false,
        culls: true,
        cull_face: 0x404,
        front_face: 0x900,
        picture: [
            0x000000, 0x804020, 0x804020, 0x804020, 0x804020, 0x000000, 0x804020, 0x804020,
            0x000000, 0x000000, 0x0000FF, 0x804020, 0x0000FF, 0x000000, 0x000000, 0x0000FF,
            0x0000FF, 0x0000FF, 0x0000FF, 0x000000,
        ],
        ..PLAIN
    },
    // Both faces are culled.
    Case {
        mode: 6,
        is_smooth: false,
        culls: true,
        cull_face: 0x408,
        ..PLAIN
    },
    // The depth test.
    Case {
        mode: 6,
        depth_on: true,
        picture: [
            0x000000, 0xA92F1B, 0x865E50, 0x638D85, 0x41BCBB, 0x000000, 0xB73328, 0xCB7A34,
            0x000000, 0x000000, 0xAF0550, 0xE84417, 0x267C5D, 0x000000, 0x000000, 0xE80E09,
            0xA94A0C, 0x6A8510, 0x2BC113, 0x000000,
        ],
        ..PLAIN
    },
    // Depths turned round.
    Case {
        mode: 6,
        range: [4, 0],
        depth_on: true,
        picture: [
            0x000000, 0x3C31C3, 0x75708A, 0x638D85, 0x41BCBB, 0x000000, 0x2238A6, 0x94625D,
            0x000000, 0x000000, 0xA50555, 0x664159, 0x267C5D, 0x000000, 0x000000, 0xE80E09,
            0xA94A0C, 0x6A8510, 0x2BC113, 0x000000,
        ],
        ..PLAIN
    },
    // Depths in a part of the range, before a half.
    Case {
        mode: 6,
        range: [1, 3],
        depth_on: true,
        clear_depth: 2,
        picture: [
            0x000000, 0x000000, 0x865E50, 0x638D85, 0x41BCBB, 0x000000, 0xB73328, 0xCB7A34,
            0x000000, 0x000000, 0xAF0550, 0xE84417, 0x000000, 0x000000, 0x000000, 0xE80E09,
            0xA94A0C, 0x000000, 0x000000, 0x000000,
        ],
        ..PLAIN
    },
    // All depths at the near plane.
    Case {
        mode: 6,
        range: [0, 0],
        depth_on: true,
        picture: [
            0x000000, 0x3C31C3, 0x75708A, 0x638D85, 0x41BCBB, 0x000000, 0x2238A6, 0xCB7A34,
            0x000000, 0x000000, 0xA50555, 0x664159, 0x267C5D, 0x000000, 0x000000, 0xE80E09,
            0xA94A0C, 0x6A8510, 0x2BC113, 0x000000,
        ],
        ..PLAIN
    },
    // A viewport in the frame.
    Case {
        mode: 6,
        view: ([1, 1], [3, 2]),
        picture: [
            0x000000, 0x000000, 0x000000, 0x000000, 0x000000, 0x000000, 0x410CBE, 0x8D6057,
            0x000000, 0x000000, 0x000000, 0xE21917, 0x488136, 0x000000, 0x000000, 0x000000,
            0x000000, 0x000000, 0x000000, 0x000000,
        ],
        ..PLAIN
    },
    // A viewport partly outside.
    Case {
        mode: 6,
        view: ([-2, -1], [6, 4]),
        picture: [
            0x000000, 0x000000, 0x000000, 0x000000, 0x000000, 0x954A3A, 0x787266, 0x5B9993,
            0x3EC0BF, 0x000000, 0xA24E47, 0x857573, 0x000000, 0x000000, 0x000000, 0x41635B,
            0x0C955E, 0x000000, 0x000000, 0x000000,
        ],
        ..PLAIN
    },
    // A viewport far outside.
    Case {
        mode: 6,
        view: ([20, 0], [6, 4]),
        ..PLAIN
    },
    // A scissor rectangle.
    Case {
        mode: 6,
        scissor_on: true,
        scissor: ([1, 0], [2, 3]),
        picture: [
            0x000000, 0x000000, 0x000000, 0x000000, 0x000000, 0x000000, 0xB73328, 0x94625D,
            0x000000, 0x000000, 0x000000, 0xC43734, 0x267C5D, 0x000000, 0x000000, 0x000000,
            0xA94A0C, 0x6A8510, 0x000000, 0x000000,
        ],
        ..PLAIN
    },
    // A scissor rectangle beside the viewport.
    Case {
        mode: 6,
        view: ([0, 0], [3, 4]),
        scissor_on: true,
        scissor: ([2, -1], [9, 3]),
        picture: [
            0x000000, 0x000000, 0x000000, 0x000000, 0x000000, 0x000000, 0x000000, 0x000000,
            0x000000, 0x000000, 0x000000, 0x000000, 0x000000, 0x000000, 0x000000, 0x000000,
            0x000000, 0x01E816, 0x000000, 0x000000,
        ],
        ..PLAIN
    },
    // Sums of colours: no pixel is drawn twice by a strip that turns no corner.
    Case {
        mode: 5,
        count: 4,
        blend_on: true,
        picture: [
            0x000000, 0x2531CE, 0x6A708F, 0x000000, 0x000000, 0x000000, 0x2238A6, 0x20758A,
            0x66B44B, 0xABF40B, 0xA50555, 0x664159, 0x267C5D, 0x1BB946, 0x61F906, 0xE80E09,
            0xA94A0C, 0x6A8510, 0x2BC113, 0x16FE01,
        ],
        ..PLAIN
    },
    // No array of vertices.
    Case {
        mode: 4,
        enabled: false,
        ..PLAIN
    },
    // No vertex.
    Case {
        mode: 4,
        count: 0,
        ..PLAIN
    },
    // One vertex.
    Case {
        mode: 5,
        count: 1,
        ..PLAIN
    },
    // Two vertices.
    Case {
        mode: 6,
        count: 2,
        ..PLAIN
    },
    // Points.
    Case { mode: 0, ..PLAIN },
    // A loop of lines.
    Case { mode: 2, ..PLAIN },
];

/// Six vertices of 16 bytes: x, y and z (16.16 fixed, -0.9 to 1.6), and red, green, blue and alpha.
pub(crate) const VERTICES: [u8; 96] = [
    154, 25, 255, 255, 51, 51, 255, 255, 0, 128, 255, 255, 255, 0, 0, 255, 205, 204, 0, 0, 154, 25,
    255, 255, 0, 128, 0, 0, 0, 255, 0, 255, 205, 76, 255, 255, 154, 217, 0, 0, 102, 230, 0, 0, 0,
    0, 255, 255, 102, 230, 0, 0, 51, 179, 0, 0, 154, 25, 255, 255, 255, 255, 0, 255, 102, 102, 1,
    0, 51, 51, 1, 0, 0, 0, 0, 0, 0, 255, 255, 255, 205, 204, 255, 255, 154, 153, 1, 0, 205, 76, 0,
    0, 128, 64, 32, 255,
];
