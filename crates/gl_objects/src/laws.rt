//! Laws over the definitions: functions that do nothing, whose contracts are the laws.

ghost use Rattle.std.specs.Prelude.{◌≡◌, ℕ, List};
ghost use Rattle.gl_objects.specs.declared.event.Event.{Event};
ghost use Rattle.gl_objects.specs.declared.named.Named.{Named};
ghost use Rattle.gl_objects.specs.declared.texture.TextureObject.{TextureObject};
ghost use Rattle.gl_objects.specs.View.{ObjectsView};
ghost use Rattle.gl_objects.specs.History.{Entry, changes, objects_after, LegalFrom};
ghost use Rattle.gl_objects.specs.Laws.{SplitsLegally, AreLeastFree, WritesPart};

/// Lists of events that differ in `Is` and `Use` alone leave the same objects; own.
pub fn asking_law()
    ensures { (objects : ObjectsView) (one other : List Event) → changes one ≡ changes other
        → objects_after objects one ≡ objects_after objects other }
{}

/// A list of entries is legal exactly where its first part is, and the others are legal behind it: a legal list stays legal
/// when entries are put behind it whose replies are right there; own.
pub fn legal_law()
    ensures { (objects : ObjectsView) (entries more : List Entry) → SplitsLegally objects entries more }
{}

/// So many names are given as were asked for, each in use nowhere (section 2.9).
pub fn names_law()
    ensures buffers { (table : List (ℕ × Named (List ℕ))) (n : ℕ) → AreLeastFree table n }
    ensures textures { (table : List (ℕ × Named TextureObject)) (n : ℕ) → AreLeastFree table n }
{}

/// After bytes were written over a part of a store, its places have them, and every other place of a store its own byte.
/// Section 2.9 of OpenGL ES 1.1.12.
pub fn part_law()
    ensures { (objects : ObjectsView) (name offset : ℕ) (bytes : List ℕ)
        → WritesPart objects name offset bytes }
{}
