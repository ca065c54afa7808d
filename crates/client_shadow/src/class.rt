//! What becomes of a call when it is issued, and which call sends the open batch. Which class a call has is asked of the
//! layer's shadow.

ghost use Rattle.std.specs.Prelude.{◌≡◌};
ghost use Rattle.client_shadow.specs.Flush.{is_flush};

use gl_words::Call;

/// What becomes of a call when it is issued; own, after Mesa.
#[derive(Clone, Copy, Debug, PartialEq, Eq)]
pub enum Class {
    /// It is answered at once, from what the layer knows.
    Answer,
    /// All calls before it are carried out first, and then it.
    Sync,
    /// It is put into a batch and carried out later.
    Defer,
}

/// Whether a call has the open batch sent on its way (section 5.1).
#[tactic(auto, unfolding(crate::specs::Flush::is_flush))]
pub fn sends_batch(call: &Call) -> bool
    ensures { result ≡ is_flush call.now }
{
    matches!(call, Call::Flush)
}
