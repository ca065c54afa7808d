//! Putting the images and writing the report.

ghost use Rattle.std.specs.Prelude.{◌≡◌, ◌≤◌, ℕ};
ghost use Rattle.gl_outside.specs.Faults.{Rose};
ghost use Rattle.replay_core.specs.Deliver.{Delivers, Puts, Writes};
ghost use Rattle.replay_text.specs.declared.status.Status.{Status};

use crate::image::ImageFile;
use gl_outside::{OutError, Shelf, Sink, write_all};
use replay_text::Status;

/// Puts the images in order, and then writes the report. Own.
pub fn deliver<K: Sink, G: Shelf>(
    sink: &mut K,
    shelf: &mut G,
    images: &[ImageFile],
    report: &[u8],
) -> Status
    ensures sound { result ≡ Status.Ok
        → (K.faults sink.new ≡ K.faults sink.old) × (G.faults shelf.new ≡ G.faults shelf.old) }
    ensures shelf_fault { (stored : ℕ) → result ≡ Status.ShelfFault stored
        → Rose (G.faults shelf.old) (G.faults shelf.new) × (sink.new ≡ sink.old) }
    ensures write_fault { result ≡ Status.WriteFault
        → Rose (K.faults sink.old) (K.faults sink.new) × (G.faults shelf.new ≡ G.faults shelf.old) }
    ensures no_memory { result ≡ Status.NoMemory
        → (K.faults sink.new ≡ K.faults sink.old) × (G.faults shelf.new ≡ G.faults shelf.old) }
    ensures delivers { Delivers result images.now report.now
        (record { held = K.held sink.old; files = G.list shelf.old })
        (record { held = K.held sink.new; files = G.list shelf.new }) }
{
    match put_images(shelf, images) {
        Status::Ok => write_report(sink, report),
        status => status,
    }
}

/// Puts the images in order, up to the first that isn't put.
fn put_images<G: Shelf>(shelf: &mut G, images: &[ImageFile]) -> Status
    ensures sound { result ≡ Status.Ok → G.faults shelf.new ≡ G.faults shelf.old }
    ensures shelf_fault { (stored : ℕ) → result ≡ Status.ShelfFault stored
        → Rose (G.faults shelf.old) (G.faults shelf.new) }
    ensures no_memory { result ≡ Status.NoMemory → G.faults shelf.new ≡ G.faults shelf.old }
    ensures puts { Puts result images.now (G.list shelf.old) (G.list shelf.new) }
{
    let mut stored = 0;
    for image in images {
        match shelf.put(image.name(), image.bytes()) {
            Ok(()) => stored += 1,
            Err(OutError::Failed) => return Status::ShelfFault { stored },
            Err(OutError::NoMemory) => return Status::NoMemory,
        }
    }
    Status::Ok
}

/// Writes the report.
fn write_report<K: Sink>(sink: &mut K, report: &[u8]) -> Status
    ensures sound { result ≡ Status.Ok → K.faults sink.new ≡ K.faults sink.old }
    ensures write_fault { result ≡ Status.WriteFault
        → Rose (K.faults sink.old) (K.faults sink.new) }
    ensures no_memory { result ≡ Status.NoMemory → K.faults sink.new ≡ K.faults sink.old }
    ensures writes { Writes result report.now (K.held sink.old) (K.held sink.new) }
{
    match write_all(sink, report) {
        Ok(()) => Status::Ok,
        Err(OutError::Failed) => Status::WriteFault,
        Err(OutError::NoMemory) => Status::NoMemory,
    }
}
