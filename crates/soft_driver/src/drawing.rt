//! What a draw goes by, taken from the private state of a context and from the objects. It is made once a draw.

ghost use Rattle.std.specs.Prelude.{◌≡◌, ◌<◌, map};
ghost use Rattle.fragment_ops.specs.State.{byte_of, AreWithinOne};
ghost use Rattle.triangle_raster.specs.Vertex.{IsView};
ghost use Rattle.gl_tracked.specs.Tracked.{IsArray};
ghost use Rattle.vertex_stage.specs.Vertex.{HasArrays};
ghost use Rattle.triangle_draw.specs.Drawing.{IsDrawing};
ghost use Rattle.gl_state.specs.Settings.{IsViewport};
ghost use Rattle.soft_driver.specs.Drawing.{constant_of, drawing_of, stage_of, texturing_of, unit_of, view_of};

use fragment_ops::byte;
use gl_objects::Objects;
use gl_state::{Private, mode_of};
use triangle_draw::{Drawing, Unit};
use triangle_raster::View;
use vertex_stage::{Stage, Texturing};

/// The number of SMOOTH (section 2.12.7).
const SMOOTH: u32 = 0x1D01;

/// What a vertex takes in the unit at place 0 or 1.
#[tactic(auto, unfolding(crate::specs::Drawing::texturing_of))]
fn texturing_of(state: &Private, unit: usize) -> Texturing
    requires unit { unit < 2 }
    ensures texturing { result ≡ texturing_of state.now unit }
    ensures array { IsArray result.coordinates }
{
    let tracked = state.tracked();
    let settings = state.settings();
    Texturing {
        coordinates: tracked.texture[unit],
        current: settings.coordinates[unit],
        matrix: *state.texture_matrix(unit),
    }
}

/// What vertices are made from.
#[tactic(auto, unfolding(crate::specs::Drawing::stage_of))]
fn stage_of(state: &Private) -> Stage
    ensures stage { result ≡ stage_of state.now }
    ensures arrays { HasArrays result }
{
    let tracked = state.tracked();
    let settings = state.settings();
    Stage {
        vertex: tracked.vertex,
        colour: tracked.colour,
        current_colour: settings.colour,
        first_unit: texturing_of(state, 0),
        second_unit: texturing_of(state, 1),
        model_view: *state.model_view(),
        projection: *state.projection(),
        is_smooth: settings.shade_model == SMOOTH,
    }
}

/// A viewport of x, y, width and height.
#[tactic(auto, unfolding(crate::specs::Drawing::view_of))]
fn view_of(viewport: [i32; 4]) -> View
    requires viewport { IsViewport viewport }
    ensures view { result ≡ view_of viewport }
    ensures whole { IsView result }
{
    let [x, y, width, height] = viewport;
    View {
        x,
        y,
        width,
        height,
    }
}

/// A colour of fixed numbers in bytes (section 3.7.12, the rounding own).
fn bytes_of(colour: [i32; 4]) -> [u8; 4]
    requires within { AreWithinOne colour }
    ensures { result ≡ map byte_of colour }
{
    let [red, green, blue, alpha] = colour;
    [byte(red), byte(green), byte(blue), byte(alpha)]
}

/// The colour of the environment of the unit at place 0 or 1 (section 3.7.12).
#[tactic(auto, unfolding(crate::specs::Drawing::constant_of))]
fn constant_of(state: &Private, unit: usize) -> [u8; 4]
    requires unit { unit < 2 }
    ensures { result ≡ constant_of state.now unit }
{
    bytes_of(state.settings().environment_colour[unit])
}

/// The unit at place 0 or 1, if it takes part: TEXTURE_2D is enabled there, and the texture that is bound there exists and is
/// complete (sections 3.7.9, 3.7.12 and 3.7.14).
#[tactic(auto, unfolding(crate::specs::Drawing::unit_of, crate::specs::Drawing::unit_with))]
fn unit_of<'a>(state: &Private, objects: &'a Objects, unit: usize) -> Option<Unit<'a>>
    requires unit { unit < 2 }
    ensures { result ≡ unit_of state.now objects.now unit }
{
    let settings = state.settings();
    if !settings.capabilities.texture_2d[unit] {
        return None;
    }
    let name = state.texture_bound(unit);
    let texture = objects.texture(name)?;
    let sampling = objects.sampling(name)?;
    if texture.is_complete(sampling) {
        Some(Unit {
            texture,
            sampling: *sampling,
            mode: mode_of(settings.environment_mode[unit]),
            constant: constant_of(state, unit),
        })
    } else {
        None
    }
}

/// What a draw goes by (sections 2.10.1, 2.12.1, 3.5.1, 3.7.14 and chapter 4).
#[tactic(auto, unfolding(crate::specs::Drawing::drawing_of))]
pub(crate) fn drawing_of<'a>(state: &Private, objects: &'a Objects) -> Drawing<'a>
    ensures drawing { result ≡ drawing_of state.now objects.now }
    ensures whole { IsDrawing result }
{
    let settings = state.settings();
    Drawing {
        stage: stage_of(state),
        view: view_of(settings.viewport),
        depth_range: settings.depth_range,
        culls: settings.capabilities.cull_face,
        cull_face: settings.cull_face,
        front_face: settings.front_face,
        first_unit: unit_of(state, objects, 0),
        second_unit: unit_of(state, objects, 1),
        fragments: state.fragment_state(),
    }
}
