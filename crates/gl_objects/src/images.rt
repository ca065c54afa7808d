//! Textures among the objects: their images, how they are read, and the room for what all objects hold.

ghost use Rattle.std.specs.Prelude.{◌≡◌, ◌^◌, ◌≤◌, None, IfOk, OnOk, OnErr, IsErr};
ghost use Rattle.std.specs.Option.{option_copied, option_map};
ghost use Rattle.std.specs.List.{sum_by};
ghost use Rattle.texture_units.specs.Texture.{rectangle_of, HasItsBytes, IsTexture};
ghost use Rattle.gl_objects.specs.Image.{image_of, image_size, with_image_part, with_parameter_set};
ghost use Rattle.gl_objects.specs.Step.{step, reply_of, fault_of};
ghost use Rattle.gl_objects.specs.Textures.{image_fault, image_part_fault, is_default, parameter_fault, room_fault, stored, texture_in, texture_or_new, with_texture};

use crate::event::Event;
use crate::named::Named;
use crate::objects::Objects;
use crate::reply::{EventReply, told};
use crate::sampling::new_sampling;
use crate::texture::TextureObject;
use gl_words::GlError;
use std::alloc::AllocError as NoMemory;
use texture_units::{Format, Sampling, Texture};

/// The most bytes that all objects hold; own.
const LIMIT: u64 = 67108864;

/// The first of the names that default textures have; own.
const DEFAULT_TEXTURE: u64 = 4294967296;

/// Whether a name is that of a default texture; own.
pub fn is_default(name: u64) -> bool
    ensures { result ≡ is_default name }
{
    name >= DEFAULT_TEXTURE && name < DEFAULT_TEXTURE + 4
}

impl Objects {
    /// The image of a texture, a default one too. None where the name is that of no object, or nothing was put in.
    pub fn texture(&self, name: u64) -> Option<&Texture>
        ensures { option_copied result ≡ image_of (texture_in self.now name) }
    {
        match self.texture_object(name) {
            Some(texture) => texture.image.as_ref(),
            None => None,
        }
    }

    /// How a texture is read, a default one too. None where the name is that of no object.
    pub fn sampling(&self, name: u64) -> Option<&Sampling>
        ensures { option_copied result
            ≡ option_map (λ texture. texture.sampling) (texture_in self.now name) }
    {
        match self.texture_object(name) {
            Some(texture) => Some(&texture.sampling),
            None => None,
        }
    }

    /// The texture of a name, a default one too.
    fn texture_object(&self, name: u64) -> Option<&TextureObject>
        ensures { option_copied result ≡ texture_in self.now name }
    {
        if is_default(name) {
            Some(&self.defaults[(name - DEFAULT_TEXTURE) as usize])
        } else {
            self.textures.object(name)
        }
    }

    /// How many bytes the images of the default textures have.
    fn default_bytes(&self) -> u64
        ensures bytes { result ≡ sum_by image_size self.now.defaults }
        ensures few { result ≤ 1048576 }
    {
        self.defaults[0].image_bytes()
            + self.defaults[1].image_bytes()
            + self.defaults[2].image_bytes()
            + self.defaults[3].image_bytes()
    }

    /// How many bytes all objects hold.
    fn stored(&self) -> u64
        ensures bytes { result ≡ stored self.now }
        ensures few { result ≤ 2 ^ 62 }
    {
        self.buffers.total() + self.textures.total() + self.default_bytes()
    }

    /// Why an object that has `old` bytes can't have so many; own. None where it can.
    pub(crate) fn room_fault(&self, old: u64, count: u64) -> Option<GlError>
        requires count { count ≤ 2 ^ 63 }
        ensures { result ≡ room_fault self.now old count }
    {
        let all = self.stored().saturating_sub(old) + count;
        if all > LIMIT {
            Some(GlError::OutOfMemory)
        } else {
            None
        }
    }

    /// Why an image can't become so many bytes. None where it can.
    fn image_fault(&self, name: u64, count: u64) -> Option<GlError>
        requires count { count ≤ 2 ^ 63 }
        ensures { result ≡ image_fault self.now name count }
    {
        match self.texture_object(name) {
            Some(texture) => self.room_fault(texture.image_bytes(), count),
            None => Some(GlError::InvalidOperation),
        }
    }

    /// How a texture is read after an image was put in: as before.
    fn sampling_kept(&self, name: u64) -> Sampling
        ensures { result ≡ (texture_or_new self.now name).sampling }
    {
        match self.texture_object(name) {
            Some(texture) => texture.sampling,
            None => new_sampling(),
        }
    }

    /// Lets a name be that of this texture. After NoMemory the objects are as they were.
    fn put_texture(&mut self, name: u64, texture: TextureObject) -> Result<(), NoMemory>
        requires { image_fault self.old name (image_size texture) ≡ None }
        ensures ok { OnOk result (self.new ≡ with_texture name texture self.old) }
        ensures err { OnErr result (self.new ≡ self.old) }
    {
        if is_default(name) {
            self.defaults[(name - DEFAULT_TEXTURE) as usize] = texture;
            Ok(())
        } else {
            self.textures.put(name, Named::Object(texture))
        }
    }

    /// The event `Image`.
    pub(crate) fn put_image(
        &mut self,
        name: u64,
        format: Format,
        width: u32,
        height: u32,
        bytes: &[u8],
    ) -> Result<EventReply, NoMemory>
        requires image { IsTexture (rectangle_of format width height bytes.now) }
        ensures reply { IfOk result (λ reply. reply
            ≡ reply_of self.old (Event.Image name format width height bytes.now)) }
        ensures ok { OnOk result (self.new
            ≡ step self.old (Event.Image name format width height bytes.now)) }
        ensures err { OnErr result (self.new ≡ self.old) }
        ensures faults { IsErr result
            → fault_of self.old (Event.Image name format width height bytes.now) ≡ None }
    {
        match self.image_fault(name, bytes.len() as u64) {
            Some(fault) => Ok(told(self.alloc, Some(fault), false)),
            None => {
                let image = Texture::new(self.alloc, format, width, height, bytes)?;
                let sampling = self.sampling_kept(name);
                let texture = TextureObject {
                    image: Some(image),
                    sampling,
                };
                self.put_texture(name, texture)?;
                Ok(told(self.alloc, None, false))
            }
        }
    }

    /// Why texels can't be put in the place of others of a texture (section 3.7.2). None where they can.
    fn image_part_fault(
        &self,
        name: u64,
        format: Format,
        x: u32,
        y: u32,
        width: u32,
        height: u32,
        bytes: &[u8],
    ) -> Option<GlError>
        ensures { result ≡ image_part_fault self.now name x y
            (rectangle_of format width height bytes.now) }
    {
        match self.texture_object(name) {
            Some(texture) => texture.part_fault(format, x, y, width, height, bytes),
            None => Some(GlError::InvalidOperation),
        }
    }

    /// Puts texels in the place of others of a texture.
    fn write_image_part(
        &mut self,
        name: u64,
        format: Format,
        x: u32,
        y: u32,
        width: u32,
        height: u32,
        bytes: &[u8],
    )
        requires fits { image_part_fault self.old name x y
            (rectangle_of format width height bytes.now) ≡ None }
        requires whole { HasItsBytes (rectangle_of format width height bytes.now) }
        ensures { self.new ≡ with_texture name (with_image_part x y
            (rectangle_of format width height bytes.now) (texture_or_new self.old name)) self.old }
    {
        if is_default(name) {
            self.defaults[(name - DEFAULT_TEXTURE) as usize].put_part(
                format, x, y, width, height, bytes,
            );
        } else {
            self.textures
                .put_part(name, format, x, y, width, height, bytes);
        }
    }

    /// The event `ImagePart`.
    pub(crate) fn put_image_part(
        &mut self,
        name: u64,
        format: Format,
        x: u32,
        y: u32,
        width: u32,
        height: u32,
        bytes: &[u8],
    ) -> EventReply
        requires whole { HasItsBytes (rectangle_of format width height bytes.now) }
        ensures reply { result
            ≡ reply_of self.old (Event.ImagePart name format x y width height bytes.now) }
        ensures ok { self.new
            ≡ step self.old (Event.ImagePart name format x y width height bytes.now) }
    {
        match self.image_part_fault(name, format, x, y, width, height, bytes) {
            Some(fault) => told(self.alloc, Some(fault), false),
            None => {
                self.write_image_part(name, format, x, y, width, height, bytes);
                told(self.alloc, None, false)
            }
        }
    }

    /// Sets a parameter of a texture.
    fn write_parameter(&mut self, name: u64, pname: u32, value: i32)
        requires there { parameter_fault self.old name ≡ None }
        ensures { self.new ≡ with_texture name
            (with_parameter_set pname value (texture_or_new self.old name)) self.old }
    {
        if is_default(name) {
            self.defaults[(name - DEFAULT_TEXTURE) as usize].set_parameter(pname, value);
        } else {
            self.textures.set_parameter(name, pname, value);
        }
    }

    /// The event `Parameter`.
    pub(crate) fn set_parameter(&mut self, name: u64, pname: u32, value: i32) -> EventReply
        ensures reply { result ≡ reply_of self.old (Event.Parameter name pname value) }
        ensures ok { self.new ≡ step self.old (Event.Parameter name pname value) }
    {
        if self.texture_object(name).is_none() {
            return told(self.alloc, Some(GlError::InvalidOperation), false);
        }
        self.write_parameter(name, pname, value);
        told(self.alloc, None, false)
    }
}
