//! What the gets give of private state. Numbers of its tracked part are found before, by the plan.

ghost use Rattle.std.specs.Prelude.{◌≡◌, ◌≤◌, ◌<◌, pos, [], ◌∷◌, None, Some, length, map};
ghost use Rattle.std.specs.Option.{option_or};
ghost use Rattle.gl_tracked.specs.Gets.{number_beside, number_of_truth};
ghost use Rattle.driver_trait.specs.Reply.{replied};
ghost use Rattle.gl_tracked.specs.Step.{number_asked};
ghost use Rattle.gl_state.specs.Gets.{active_unit, alone, capability_rows, fixed_asked, fixed_length, integers_length, limit_rows, list_beside, rectangle_rows, setting_rows};
ghost use Rattle.gl_state.specs.Step.{list_length, numbers_replied, private_reply};

use crate::private::Private;
use crate::settings::place_of_unit;
use driver_trait::Reply;
use gl_memory::Numbers;
use gl_objects::EventReply;
use gl_words::Call;

impl Private {
    /// What a call without an error replies, its event having given this back, ReadPixels and what asks for a number of tracked
    /// state aside (sections 2.5, 2.9, 3.7.11 and 6.1).
    pub(crate) fn answer(&self, call: &Call, event: &EventReply, room: Numbers) -> Reply
        requires unknown { number_asked self.now.tracked call.now ≡ None }
        requires empty { room.items ≡ [] }
        requires room { list_length call.now ≤ room.room }
        requires names { length event.now.names ≤ list_length call.now }
        ensures { replied result ≡ private_reply None self.now call.now event.now }
    {
        match call {
            Call::GenBuffers { .. } | Call::GenTextures { .. } => {
                all_names(event.names.as_slice(), room)
            }
            Call::GetError => Reply::One(i64::from(self.error_code())),
            Call::GetFixedv { pname, .. } => self.fixed(*pname, room),
            Call::GetIntegerv { pname, .. } => self.integers(*pname, room),
            Call::IsBuffer { .. } | Call::IsTexture { .. } => truth(event.truth),
            Call::IsEnabled { cap } => self.capability(*cap),
            _ => Reply::Nothing,
        }
    }

    /// The place of the active unit among the units (section 3.7.12).
    #[tactic(auto, unfolding(crate::specs::Gets::active_unit))]
    pub(crate) fn unit(&self) -> usize
        ensures unit { result ≡ active_unit self.now }
        ensures few { result < 2 }
    {
        place_of_unit(self.tracked().active)
    }

    /// What GetIntegerv gives for a name of a setting, a limit or a rectangle, as a reply: the side of textures in texels
    /// and how many units there are among them (table 6.20, the values own).
    #[tactic(auto, unfolding(crate::specs::Gets::setting_rows, crate::specs::Gets::rectangle_rows, crate::specs::Gets::integers_length))]
    fn integers(&self, name: u32, room: Numbers) -> Reply
        requires empty { room.items ≡ [] }
        requires room { integers_length name ≤ room.room }
        ensures { let p = self.now in replied result ≡ numbers_replied
            (option_or (alone (number_beside (setting_rows p) name))
            (option_or (alone (number_beside limit_rows name))
            (list_beside (rectangle_rows p) name))) }
    {
        let settings = self.settings();
        match name {
            0x0B45 => Reply::One(i64::from(settings.cull_face)),
            0x0B46 => Reply::One(i64::from(settings.front_face)),
            0x0B54 => Reply::One(i64::from(settings.shade_model)),
            0x0B74 => Reply::One(i64::from(settings.depth_func)),
            0x0BC1 => Reply::One(i64::from(settings.alpha_func)),
            0x0BE0 => Reply::One(i64::from(settings.dest_factor)),
            0x0BE1 => Reply::One(i64::from(settings.source_factor)),
            0x8069 => Reply::One(i64::from(settings.bindings[self.unit()])),
            0x0D33 => Reply::One(256),
            0x84E2 => Reply::One(2),
            0x0BA2 => all(&settings.viewport, room),
            0x0C10 => all(&settings.scissor, room),
            _ => Reply::Nothing,
        }
    }

    /// What GetFixedv gives for a name, as a reply (section 6.1.1).
    #[tactic(auto, unfolding(crate::specs::Gets::fixed_asked, crate::specs::Gets::fixed_rows, crate::specs::Gets::fixed_length))]
    fn fixed(&self, name: u32, room: Numbers) -> Reply
        requires empty { room.items ≡ [] }
        requires room { fixed_length name ≤ room.room }
        ensures { replied result ≡ numbers_replied (fixed_asked self.now name) }
    {
        match name {
            0x0B00 => all(&self.settings().colour, room),
            0x0B73 => Reply::One(i64::from(self.settings().clear_depth)),
            0x0BA6 => all(&self.top_at(0x1700).values(), room),
            0x0BA7 => all(&self.top_at(0x1701).values(), room),
            0x0BA8 => all(&self.top_at(0x1702).values(), room),
            0x0C22 => all(&self.settings().clear_colour, room),
            _ => Reply::Nothing,
        }
    }

    /// What IsEnabled gives for a name of a capability, as a reply (section 6.1.1).
    #[tactic(auto, unfolding(crate::specs::Gets::capability_rows))]
    fn capability(&self, name: u32) -> Reply
        ensures { replied result
            ≡ numbers_replied (alone (number_beside (capability_rows self.now) name)) }
    {
        let capabilities = &self.settings().capabilities;
        match name {
            0x0B44 => truth(capabilities.cull_face),
            0x0B71 => truth(capabilities.depth_test),
            0x0BC0 => truth(capabilities.alpha_test),
            0x0BD0 => truth(capabilities.dither),
            0x0BE2 => truth(capabilities.blend),
            0x0C11 => truth(capabilities.scissor_test),
            0x0DE1 => truth(capabilities.texture_2d[self.unit()]),
            _ => Reply::Nothing,
        }
    }
}

/// 1 for what is so, 0 for what isn't, as a reply (section 6.1.2).
fn truth(is_so: bool) -> Reply
    ensures { replied result ≡ numbers_replied (Some (number_of_truth is_so ∷ [])) }
{
    Reply::One(if is_so { 1 } else { 0 })
}

/// Numbers as a reply.
fn all(values: &[i32], room: Numbers) -> Reply
    requires empty { room.items ≡ [] }
    requires room { length values.now ≤ room.room }
    ensures { replied result ≡ numbers_replied (Some values.now) }
{
    let mut numbers = room;
    for value in values {
        numbers.push(i64::from(*value));
    }
    Reply::Numbers(numbers)
}

/// Names as a reply.
fn all_names(names: &[u32], room: Numbers) -> Reply
    requires empty { room.items ≡ [] }
    requires room { length names.now ≤ room.room }
    ensures { replied result ≡ numbers_replied (Some (map pos names.now)) }
{
    let mut numbers = room;
    for name in names {
        numbers.push(i64::from(*name));
    }
    Reply::Numbers(numbers)
}
