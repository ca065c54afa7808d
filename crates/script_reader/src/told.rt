//! A body line that was judged. Its bytes are still digits in the source, so that judging takes no memory.

ghost use Rattle.std.specs.Prelude.{◌≡◌, ◌^◌, ◌<◌, ◌≤◌, IfOk};
ghost use Rattle.script_reader.specs.ImageBytes.{image_bytes, line_bytes};
ghost use Rattle.script_reader.specs.UploadBytes.{line_uploads};

use crate::hex::octets_from;
use crate::name::Name;
use crate::script::{Act, Line};
use crate::uploads::upload_bytes_of;
use gl_words::Call;
use std::alloc::{AllocError, Global};
use std::marker::Model;

/// A body line: its number in the script, from 1, and its context, from 0. Contracts see the line that comes of it.
#[derive(Drop)]
pub(crate) struct Told<'a> {
    pub(crate) number: u32,
    pub(crate) context: u32,
    pub(crate) act: Asked<'a>,
}

/// What a line does, with the digits of its bytes.
#[derive(Drop)]
pub(crate) enum Asked<'a> {
    Mem {
        at: u32,
        digits: &'a [u8],
    },
    Image {
        name: Name,
        width: u32,
        height: u32,
        at: u32,
    },
    Gl(Call),
}

impl<'a> Model for Told<'a> {
    ghost use Rattle.script_reader.specs.declared.script.Line.{Line};
    ghost use Rattle.script_reader.specs.Told.{act_of, HasBytes};

    ghost Value = { Line };

    ghost view = { λ t. record { number = t.number; context = t.context; act = act_of t.act } };

    ghost invariant = { λ t. HasBytes t.act };
}

impl Told<'_> {
    /// How many bytes its image takes, if it takes one.
    pub(crate) fn image_bytes(&self) -> u64
        requires { line_bytes self.now < 2 ^ 64 }
        ensures { result ≡ line_bytes self.now }
    {
        match &self.act {
            Asked::Image { width, height, .. } => image_bytes_of(*width, *height),
            Asked::Mem { .. } | Asked::Gl(_) => 0,
        }
    }

    /// How many bytes of uploads it declares.
    pub(crate) fn upload_bytes(&self) -> u64
        ensures gives { result ≡ line_uploads self.now }
        ensures few { result ≤ 67108864 }
    {
        match &self.act {
            Asked::Gl(call) => upload_bytes_of(call),
            Asked::Mem { .. } | Asked::Image { .. } => 0,
        }
    }

    /// The line that comes of it. It takes the memory of its bytes.
    pub(crate) fn into_line(self, alloc: Global) -> Result<Line, AllocError>
        ensures { IfOk result (λ line. line ≡ self.entry) }
    {
        let Told {
            number,
            context,
            act,
        } = self;
        let act = match act {
            Asked::Mem { at, digits } => Act::Mem {
                at,
                bytes: octets_from(alloc, digits)?,
            },
            Asked::Image {
                name,
                width,
                height,
                at,
            } => Act::Image {
                name,
                width,
                height,
                at,
            },
            Asked::Gl(call) => Act::Gl(call),
        };
        Ok(Line {
            number,
            context,
            act,
        })
    }
}

/// How many bytes an image with these sides in pixels takes.
pub(crate) fn image_bytes_of(width: u32, height: u32) -> u64
    requires { image_bytes width height < 2 ^ 64 }
    ensures { result ≡ image_bytes width height }
{
    3 * (u64::from(width) * u64::from(height))
}
