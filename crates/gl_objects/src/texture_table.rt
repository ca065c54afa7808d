//! Textures among the names of their kind, changed where they stand.

ghost use Rattle.std.specs.Prelude.{◌≡◌, is_some, true, Some, None};
ghost use Rattle.std.specs.Ordering.{nat_cmp};
ghost use Rattle.std.specs.Option.{unwrap_or};
ghost use Rattle.std.specs.Map.{set_value};
ghost use Rattle.std.specs.BTreeMap.{is_at};
ghost use Rattle.texture_units.specs.Texture.{rectangle_of, HasItsBytes};
ghost use Rattle.gl_objects.specs.Image.{image_of, new_texture, part_of_image_fault, with_image_part, with_parameter_set};
ghost use Rattle.gl_objects.specs.Table.{object_in, object_of, put};

use crate::named::Named;
use crate::table::Table;
use crate::texture::TextureObject;
use std::collections::BTreeMap;
use texture_units::Format;

impl Table<TextureObject> {
    /// Puts texels in the place of others of a texture's image (section 3.7.2). It takes no memory.
    pub fn put_part(
        &mut self,
        name: u64,
        format: Format,
        x: u32,
        y: u32,
        width: u32,
        height: u32,
        bytes: &[u8],
    )
        requires fits { part_of_image_fault (image_of (object_in self.old name)) x y
            (rectangle_of format width height bytes.now) ≡ None }
        requires whole { HasItsBytes (rectangle_of format width height bytes.now) }
        ensures { self.new ≡ put name (Named.Object (with_image_part x y
            (rectangle_of format width height bytes.now)
            (unwrap_or (object_in self.old name) new_texture))) self.old }
    {
        let _ordered = self.entries.len();
        put_part_at(&mut self.entries, name, format, x, y, width, height, bytes);
    }

    /// Sets a parameter of a texture (section 3.7.4). It takes no memory.
    pub fn set_parameter(&mut self, name: u64, pname: u32, value: i32)
        requires there { is_some (object_in self.old name) ≡ true }
        ensures { self.new ≡ put name (Named.Object (with_parameter_set pname value
            (unwrap_or (object_in self.old name) new_texture))) self.old }
    {
        let _ordered = self.entries.len();
        set_parameter_at(&mut self.entries, name, pname, value);
    }
}

/// Puts texels in the place of others of the image of a texture among these.
fn put_part_at(
    entries: &mut BTreeMap<u64, Named<TextureObject>>,
    name: u64,
    format: Format,
    x: u32,
    y: u32,
    width: u32,
    height: u32,
    bytes: &[u8],
)
    requires fits { part_of_image_fault (image_of (object_in entries.old.entries name)) x y
        (rectangle_of format width height bytes.now) ≡ None }
    requires whole { HasItsBytes (rectangle_of format width height bytes.now) }
    ensures { entries.new.entries
        ≡ set_value (is_at (nat_cmp name)) entries.old.entries
        (Named.Object (with_image_part x y (rectangle_of format width height bytes.now)
        (unwrap_or (object_in entries.old.entries name) new_texture))) }
{
    if let Some(what) = entries.get_mut(&name) {
        put_part_in(what, format, x, y, width, height, bytes);
    }
}

/// Puts texels in the place of others of a texture's image.
fn put_part_in(
    what: &mut Named<TextureObject>,
    format: Format,
    x: u32,
    y: u32,
    width: u32,
    height: u32,
    bytes: &[u8],
)
    requires fits { part_of_image_fault (image_of (object_of (Some what.old))) x y
        (rectangle_of format width height bytes.now) ≡ None }
    requires whole { HasItsBytes (rectangle_of format width height bytes.now) }
    ensures { what.new ≡ Named.Object (with_image_part x y
        (rectangle_of format width height bytes.now)
        (unwrap_or (object_of (Some what.old)) new_texture)) }
{
    match what {
        Named::Object(texture) => texture.put_part(format, x, y, width, height, bytes),
        Named::Generated => {}
    }
}

/// Sets a parameter of a texture among these.
fn set_parameter_at(
    entries: &mut BTreeMap<u64, Named<TextureObject>>,
    name: u64,
    pname: u32,
    value: i32,
)
    requires there { is_some (object_in entries.old.entries name) ≡ true }
    ensures { entries.new.entries
        ≡ set_value (is_at (nat_cmp name)) entries.old.entries
        (Named.Object (with_parameter_set pname value
        (unwrap_or (object_in entries.old.entries name) new_texture))) }
{
    if let Some(what) = entries.get_mut(&name) {
        set_parameter_in(what, pname, value);
    }
}

/// Sets a parameter of a texture.
fn set_parameter_in(what: &mut Named<TextureObject>, pname: u32, value: i32)
    requires there { is_some (object_of (Some what.old)) ≡ true }
    ensures { what.new ≡ Named.Object (with_parameter_set pname value
        (unwrap_or (object_of (Some what.old)) new_texture)) }
{
    match what {
        Named::Object(texture) => texture.set_parameter(pname, value),
        Named::Generated => {}
    }
}
