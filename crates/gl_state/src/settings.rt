//! What calls set besides stacks, tracked state and errors: current values, capabilities, masks and the rest.

ghost use Rattle.std.specs.Prelude.{◌≡◌, ◌<◌, ◌≤ℤ◌, pos, neg_ℤ, true, List, [], ◌∷◌};
ghost use Rattle.gl_memory.specs.Segment.{Segment};
ghost use Rattle.fragment_ops.specs.Frame.{AreSides};
ghost use Rattle.fragment_ops.specs.State.{number_at, AreWithinOne, IsWithinOne};
ghost use Rattle.gl_tracked.specs.declared.tracked.Tracked.{Tracked};
ghost use Rattle.gl_tracked.specs.Names.{names_at};
ghost use Rattle.gl_state.specs.Settings.{clamped_origin, clamped_side, clamped_to_one, clamped_within, first_capabilities, first_settings, place_of_unit, with_capability, without_textures, AreAccepted, AreClamped, IsViewport};
ghost use Rattle.gl_state.specs.Step.{is_current, is_of_environment, is_of_frame, is_of_primitives, is_of_tests, settings_set_by};

use crate::images::colour_from;
use gl_memory::Memory;
use gl_tracked::{Tracked, binding_after, count_of, name_at};
use gl_words::Call;

/// Which capabilities are enabled (chapters 2 to 4).
#[derive(Clone, Copy, Debug, PartialEq, Eq)]
pub struct Capabilities {
    /// Of unit 0 and of unit 1 (section 3.7.12).
    pub texture_2d: [bool; 2],
    /// Section 3.5.1.
    pub cull_face: bool,
    /// Section 4.1.4.
    pub alpha_test: bool,
    /// Section 4.1.7.
    pub blend: bool,
    /// Kept and told, and it changes no pixel (section 4.1.8, that own).
    pub dither: bool,
    /// Section 4.1.6.
    pub depth_test: bool,
    /// Section 4.1.2.
    pub scissor_test: bool,
}

impl Capabilities {
    /// Those of a context at the start: all are disabled but dithering (chapters 2 to 4).
    fn new() -> Capabilities
        ensures { result ≡ first_capabilities }
    {
        Capabilities {
            texture_2d: [false, false],
            cull_face: false,
            alpha_test: false,
            blend: false,
            dither: true,
            depth_test: false,
            scissor_test: false,
        }
    }

    /// Enables or disables a capability, TEXTURE_2D of the unit at a place (chapters 2 to 4).
    #[tactic(auto, unfolding(crate::specs::Settings::with_capability))]
    fn set(&mut self, place: usize, cap: u32, is_on: bool)
        requires { place < 2 }
        ensures { self.new ≡ with_capability self.old place cap is_on }
    {
        match cap {
            0x0B44 => self.cull_face = is_on,
            0x0B71 => self.depth_test = is_on,
            0x0BC0 => self.alpha_test = is_on,
            0x0BD0 => self.dither = is_on,
            0x0BE2 => self.blend = is_on,
            0x0C11 => self.scissor_test = is_on,
            _ => self.texture_2d[place] = is_on,
        }
    }
}

/// The settings of a context; the choice of what stands here is own.
#[derive(Clone, Copy, Debug, PartialEq, Eq)]
pub struct Settings {
    /// Red, green, blue and alpha, 16.16 fixed (section 2.7).
    pub colour: [i32; 4],
    /// 16.16 fixed (section 2.7).
    pub normal: [i32; 3],
    /// s, t, r and q of unit 0 and of unit 1, 16.16 fixed (section 2.7).
    pub coordinates: [[i32; 4]; 2],
    pub capabilities: Capabilities,
    /// x, y, width and height, in pixels (section 2.10.1).
    pub viewport: [i32; 4],
    /// x, y, width and height, in pixels (section 4.1.2).
    pub scissor: [i32; 4],
    /// Near and far, 0 to 65536, 16.16 fixed (section 2.10.1).
    pub depth_range: [i32; 2],
    /// FLAT or SMOOTH (section 2.12.7).
    pub shade_model: u32,
    /// CW or CCW (section 2.12.1).
    pub front_face: u32,
    /// FRONT, BACK or FRONT_AND_BACK (section 3.5.1).
    pub cull_face: u32,
    /// A comparison, and a reference of 0 to 65536, 16.16 fixed (section 4.1.4).
    pub alpha_func: u32,
    pub alpha_reference: i32,
    /// A comparison (section 4.1.6).
    pub depth_func: u32,
    /// Factors (section 4.1.7).
    pub source_factor: u32,
    pub dest_factor: u32,
    /// Red, green, blue and alpha (section 4.2.2).
    pub colour_mask: [bool; 4],
    /// Whether depths are written (section 4.2.2).
    pub depth_mask: bool,
    /// Red, green, blue and alpha, 0 to 65536, 16.16 fixed (section 4.2.3).
    pub clear_colour: [i32; 4],
    /// 0 to 65536, 16.16 fixed (section 4.2.3).
    pub clear_depth: i32,
    /// The texture bound to TEXTURE_2D in unit 0 and in unit 1, or 0 for the default one (section 3.7.11).
    pub bindings: [u32; 2],
    /// The mode and the colour of the environment of unit 0 and of unit 1, the colour 0 to 65536, 16.16 fixed (section 3.7.12).
    pub environment_mode: [u32; 2],
    pub environment_colour: [[i32; 4]; 2],
}

impl Settings {
    /// Those of a context at the start, with a frame of these sides in pixels (tables 6.4 to 6.20).
    #[tactic(auto, unfolding(crate::specs::Settings::first_settings), using(crate::proofs::Clamping::first_environments, crate::proofs::Clamping::first_modes))]
    pub(crate) fn new(width: u32, height: u32) -> Settings
        requires sides { AreSides width height }
        ensures first { result ≡ first_settings width height }
        ensures clamped { AreClamped result }
        ensures accepted { AreAccepted result }
    {
        Settings {
            colour: [65536, 65536, 65536, 65536],
            normal: [0, 0, 65536],
            coordinates: [[0, 0, 0, 65536], [0, 0, 0, 65536]],
            capabilities: Capabilities::new(),
            viewport: [0, 0, width as i32, height as i32],
            scissor: [0, 0, width as i32, height as i32],
            depth_range: [0, 65536],
            shade_model: 0x1D01,
            front_face: 0x0901,
            cull_face: 0x0405,
            alpha_func: 0x0207,
            alpha_reference: 0,
            depth_func: 0x0201,
            source_factor: 1,
            dest_factor: 0,
            colour_mask: [true, true, true, true],
            depth_mask: true,
            clear_colour: [0, 0, 0, 0],
            clear_depth: 65536,
            bindings: [0, 0],
            environment_mode: [0x2100, 0x2100],
            environment_colour: [[0, 0, 0, 0], [0, 0, 0, 0]],
        }
    }

    /// Sets what a call without an error sets on a memory.
    #[tactic(auto, unfolding(crate::specs::Step::settings_set_by, crate::specs::Settings::without_textures))]
    pub(crate) fn set<M: Memory>(&mut self, tracked: &Tracked, call: &Call, memory: &M)
        ensures set { self.new
            ≡ settings_set_by tracked.now self.old call.now (M.segments memory.now) }
        ensures clamped { AreClamped self.old → AreClamped self.new }
    {
        match call {
            Call::Color4x { .. } | Call::MultiTexCoord4x { .. } | Call::Normal3x { .. } => {
                self.set_current(call);
            }
            Call::CullFace { .. }
            | Call::DepthRangex { .. }
            | Call::FrontFace { .. }
            | Call::ShadeModel { .. }
            | Call::Viewport { .. } => self.set_primitives(call),
            Call::AlphaFuncx { .. }
            | Call::BlendFunc { .. }
            | Call::DepthFunc { .. }
            | Call::Scissor { .. } => self.set_tests(call),
            Call::ClearColorx { .. }
            | Call::ClearDepthx { .. }
            | Call::ColorMask { .. }
            | Call::DepthMask { .. } => self.set_frame(call),
            Call::BindTexture { texture, .. } => {
                self.bindings[place_of_unit(tracked.active)] = *texture;
            }
            Call::DeleteTextures { n, names } => {
                self.delete_textures(*names, count_of(*n), memory);
            }
            Call::Disable { cap } => {
                self.capabilities
                    .set(place_of_unit(tracked.active), *cap, false);
            }
            Call::Enable { cap } => {
                self.capabilities
                    .set(place_of_unit(tracked.active), *cap, true);
            }
            Call::TexEnvi { .. } | Call::TexEnvxv { .. } => {
                self.set_environment(tracked, call, memory);
            }
            _ => {}
        }
    }

    /// Forgets the bindings of so many textures, whose names lie from a place of memory on (section 3.7.11).
    fn delete_textures<M: Memory>(&mut self, names: u32, count: u32, memory: &M)
        ensures { self.new
            ≡ without_textures (names_at (M.segments memory.now) names count) self.old }
    {
        for number in 0..count {
            self.delete_texture(name_at(memory, names, number));
        }
    }

    /// Forgets the bindings of a texture (section 3.7.11).
    #[tactic(auto, unfolding(crate::specs::Settings::without_textures))]
    fn delete_texture(&mut self, name: u32)
        ensures { self.new ≡ without_textures (name ∷ []) self.old }
    {
        self.bindings = [
            binding_after(name, self.bindings[0]),
            binding_after(name, self.bindings[1]),
        ];
    }

    /// Sets the mode or the colour of the environment of the active unit (section 3.7.12).
    #[tactic(auto, unfolding(crate::specs::Step::settings_set_by))]
    fn set_environment<M: Memory>(&mut self, tracked: &Tracked, call: &Call, memory: &M)
        requires { is_of_environment call.now ≡ true }
        ensures set { self.new
            ≡ settings_set_by tracked.now self.old call.now (M.segments memory.now) }
        ensures clamped { AreClamped self.old → AreClamped self.new }
    {
        let place = place_of_unit(tracked.active);
        match call {
            Call::TexEnvi { param, .. } => self.environment_mode[place] = count_of(*param),
            Call::TexEnvxv { params, .. } => {
                self.environment_colour[place] = colour_from(memory, *params);
            }
            _ => {}
        }
    }

    /// Sets a value that vertices take where no array has one (section 2.7).
    #[tactic(auto, unfolding(crate::specs::Step::settings_set_by))]
    fn set_current(&mut self, call: &Call)
        requires { is_current call.now ≡ true }
        ensures set { (tracked : Tracked) (memory : List Segment) → self.new
            ≡ settings_set_by tracked self.old call.now memory }
        ensures clamped { AreClamped self.old → AreClamped self.new }
    {
        match call {
            Call::Color4x {
                red,
                green,
                blue,
                alpha,
            } => self.colour = [*red, *green, *blue, *alpha],
            Call::MultiTexCoord4x { target, s, t, r, q } => {
                self.coordinates[place_of_unit(*target)] = [*s, *t, *r, *q];
            }
            Call::Normal3x { nx, ny, nz } => self.normal = [*nx, *ny, *nz],
            _ => {}
        }
    }

    /// Sets where primitives lie in the window, which faces they have, and how they are shaded (sections 2.10.1, 2.12.1,
    /// 2.12.7 and 3.5.1).
    #[tactic(auto, unfolding(crate::specs::Step::settings_set_by))]
    fn set_primitives(&mut self, call: &Call)
        requires { is_of_primitives call.now ≡ true }
        ensures set { (tracked : Tracked) (memory : List Segment) → self.new
            ≡ settings_set_by tracked self.old call.now memory }
        ensures clamped { AreClamped self.old → AreClamped self.new }
    {
        match call {
            Call::CullFace { mode } => self.cull_face = *mode,
            Call::DepthRangex { near, far } => self.depth_range = clamped_range(*near, *far),
            Call::FrontFace { mode } => self.front_face = *mode,
            Call::ShadeModel { mode } => self.shade_model = *mode,
            Call::Viewport {
                x,
                y,
                width,
                height,
            } => self.viewport = clamped_viewport(*x, *y, *width, *height),
            _ => {}
        }
    }

    /// Sets a test of fragments, or how they are blended (sections 4.1.2 to 4.1.7).
    #[tactic(auto, unfolding(crate::specs::Step::settings_set_by))]
    fn set_tests(&mut self, call: &Call)
        requires { is_of_tests call.now ≡ true }
        ensures set { (tracked : Tracked) (memory : List Segment) → self.new
            ≡ settings_set_by tracked self.old call.now memory }
        ensures clamped { AreClamped self.old → AreClamped self.new }
    {
        match call {
            Call::AlphaFuncx { func, reference } => {
                self.alpha_func = *func;
                self.alpha_reference = clamped_to_one(*reference);
            }
            Call::BlendFunc { sfactor, dfactor } => {
                self.source_factor = *sfactor;
                self.dest_factor = *dfactor;
            }
            Call::DepthFunc { func } => self.depth_func = *func,
            Call::Scissor {
                x,
                y,
                width,
                height,
            } => self.scissor = [*x, *y, *width, *height],
            _ => {}
        }
    }

    /// Sets what the frame is cleared to, or which parts of it are written (sections 4.2.2 and 4.2.3).
    #[tactic(auto, unfolding(crate::specs::Step::settings_set_by))]
    fn set_frame(&mut self, call: &Call)
        requires { is_of_frame call.now ≡ true }
        ensures set { (tracked : Tracked) (memory : List Segment) → self.new
            ≡ settings_set_by tracked self.old call.now memory }
        ensures clamped { AreClamped self.old → AreClamped self.new }
    {
        match call {
            Call::ClearColorx {
                red,
                green,
                blue,
                alpha,
            } => self.clear_colour = clamped_colour(*red, *green, *blue, *alpha),
            Call::ClearDepthx { depth } => self.clear_depth = clamped_to_one(*depth),
            Call::ColorMask {
                red,
                green,
                blue,
                alpha,
            } => self.colour_mask = [*red, *green, *blue, *alpha],
            Call::DepthMask { flag } => self.depth_mask = *flag,
            _ => {}
        }
    }
}

/// The place of a unit: 0 for TEXTURE0, else 1 (sections 2.7 and 3.7.12).
pub(crate) fn place_of_unit(unit: u32) -> usize
    ensures place { result ≡ place_of_unit unit }
    ensures few { result < 2 }
{
    if unit == 0x84C0 { 0 } else { 1 }
}

/// A number clamped to lie between two others.
fn clamped_within(low: i32, high: i32, number: i32) -> i32
    ensures { result ≡ clamped_within low high number }
{
    if number < low {
        low
    } else if high < number {
        high
    } else {
        number
    }
}

/// A 16.16 fixed number clamped to 0 to 1 (sections 2.10.1, 3.7.12, 4.1.4 and 4.2.3).
pub(crate) fn clamped_to_one(number: i32) -> i32
    ensures clamped { result ≡ clamped_to_one number }
    ensures within { IsWithinOne result }
{
    clamped_within(0, 65536, number)
}

/// The place of a viewport, clamped to 1024 pixels from zero (section 2.10.1).
fn clamped_origin(number: i32) -> i32
    ensures clamped { result ≡ clamped_origin number }
    ensures low { neg_ℤ (pos 1024) ≤ℤ result }
    ensures high { result ≤ℤ pos 1024 }
{
    clamped_within(-1024, 1024, number)
}

/// The side of a viewport, clamped to 512 pixels (section 2.10.1).
fn clamped_side(number: i32) -> i32
    ensures clamped { result ≡ clamped_side number }
    ensures low { pos 0 ≤ℤ result }
    ensures high { result ≤ℤ pos 512 }
{
    clamped_within(0, 512, number)
}

/// A colour with its parts clamped to 0 to 1 (section 4.2.3).
fn clamped_colour(red: i32, green: i32, blue: i32, alpha: i32) -> [i32; 4]
    ensures colour { result ≡ clamped_to_one red ∷ clamped_to_one green ∷
        clamped_to_one blue ∷ clamped_to_one alpha ∷ [] }
    ensures within { AreWithinOne result }
{
    [
        clamped_to_one(red),
        clamped_to_one(green),
        clamped_to_one(blue),
        clamped_to_one(alpha),
    ]
}

/// The depths of the near and the far plane, clamped to 0 to 1 (section 2.10.1).
fn clamped_range(near: i32, far: i32) -> [i32; 2]
    ensures range { result ≡ clamped_to_one near ∷ clamped_to_one far ∷ [] }
    ensures near { IsWithinOne (number_at result 0) }
    ensures far { IsWithinOne (number_at result 1) }
{
    [clamped_to_one(near), clamped_to_one(far)]
}

/// A viewport with its place and its sides clamped (section 2.10.1).
fn clamped_viewport(x: i32, y: i32, width: i32, height: i32) -> [i32; 4]
    ensures viewport { result ≡ clamped_origin x ∷ clamped_origin y ∷
        clamped_side width ∷ clamped_side height ∷ [] }
    ensures within { IsViewport result }
{
    [
        clamped_origin(x),
        clamped_origin(y),
        clamped_side(width),
        clamped_side(height),
    ]
}
