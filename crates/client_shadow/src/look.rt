//! What the layer finds when it looks at a call, once for all that is done with it.

ghost use Rattle.std.specs.Prelude.{◌≡◌};
ghost use Rattle.client_shadow.specs.Look.{class_in};

use crate::class::Class;
use batch_pack::Heading;
use gl_words::GlError;

/// What becomes of a call when it is issued; own.
#[derive(Clone, Copy)]
pub enum Becomes {
    /// It is answered at once, with this number.
    Answer(i64),
    /// All calls before it are carried out first, and then it. Whether it asks for something (sections 2.5, 4.3.1 and 6.1).
    Sync { asks: bool },
    /// It is put into a batch with the pieces of client memory that were found for it, its spelling with them having this
    /// heading, and carried out later. It asks for nothing.
    Defer { heading: Heading },
}

impl Becomes {
    /// The class of a call of which this becomes; own.
    pub fn class(&self) -> Class
        ensures { result ≡ class_in self.now }
    {
        match self {
            Becomes::Answer(_) => Class::Answer,
            Becomes::Sync { .. } => Class::Sync,
            Becomes::Defer { .. } => Class::Defer,
        }
    }
}

/// What becomes of a call, and its error (section 2.5); own.
#[derive(Clone, Copy)]
pub struct Look {
    pub becomes: Becomes,
    pub fault: Option<GlError>,
}
