//! The files of images. Which images a script has is told by its lines, and how an image is spelled in `replay_text`.

ghost use Rattle.std.specs.Prelude.{◌≡◌, ◌++◌, string_bytes, IfOk, OnOk};
ghost use Rattle.std.specs.List.{All};
ghost use Rattle.replay_lines.specs.Results.{shown_by};
ghost use Rattle.replay_core.specs.Images.{file_of, files_of, frame_file, IsWhole};

use gl_memory::Octets;
use replay_lines::{Results, What};
use replay_text::{frame_name, image_name, ppm, ppm_of_cells};
use soft_driver::Frame;
use std::alloc::{AllocError as NoMemory, Global};
use std::marker::Model;

/// An image under its name; own. Contracts see the pair of the name and the bytes.
#[derive(Drop)]
pub struct ImageFile {
    name: String,
    bytes: Octets,
}

impl Model for ImageFile {
    ghost use Rattle.std.specs.Prelude.{ℕ, List, string_bytes};

    ghost Value = { List ℕ × List ℕ };

    ghost view = { λ file. (string_bytes file.name, file.bytes.items) };
}

impl ImageFile {
    /// These bytes under this name; own.
    pub fn new(name: String, bytes: Octets) -> ImageFile
        ensures { result ≡ (string_bytes name, bytes.items) }
    {
        ImageFile { name, bytes }
    }

    /// The name; own.
    pub fn name(&self) -> &str
        ensures { result.now ≡ self.now.0 }
    {
        self.name.as_str()
    }

    /// The bytes; own.
    pub fn bytes(&self) -> &[u8]
        ensures { result.now ≡ self.now.1 }
    {
        self.bytes.as_slice()
    }
}

/// The files of the images that lines took, in order, or NoMemory; own.
pub fn files(alloc: Global, results: &Results) -> Result<Vec<ImageFile>, NoMemory>
    requires whole { All (λ done. IsWhole done.shown) results.now }
    ensures { IfOk result (λ files. files.items ≡ files_of results.now) }
{
    let mut files = Vec::new(alloc);
    for place in 0..results.len() {
        add_file(alloc, &mut files, &results.at(place).what)?;
    }
    Ok(files)
}

/// Adds the file of what a line told, if it took an image.
fn add_file(alloc: Global, files: &mut Vec<ImageFile>, what: &What) -> Result<(), NoMemory>
    requires whole { IsWhole (shown_by what.now) }
    ensures { OnOk result (files.new.items ≡ files.old.items ++ file_of (shown_by what.now)) }
{
    match what {
        What::Answer { .. } => Ok(()),
        What::Image {
            name,
            width,
            height,
            bytes,
        } => {
            let name = image_name(alloc, name)?;
            let bytes = ppm(alloc, *width, *height, bytes.as_slice())?;
            files.push(ImageFile::new(name, bytes))?;
            Ok(())
        }
    }
}

/// The file of a context's frame, or NoMemory; own.
#[tactic(auto, unfolding(crate::specs::Images::frame_file))]
pub fn frame_file(alloc: Global, context: u32, frame: &Frame) -> Result<ImageFile, NoMemory>
    ensures { IfOk result (λ file. file ≡ frame_file context frame.now) }
{
    let name = frame_name(alloc, context)?;
    let bytes = ppm_of_cells(alloc, frame.width(), frame.height(), frame.cells())?;
    Ok(ImageFile::new(name, bytes))
}
