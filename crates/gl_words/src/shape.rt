//! The shapes of calls: number and kinds of arguments. What a call is, is told in `call.rt`, and which name has
//! which shape in `lookup.rt`.

ghost use Rattle.std.specs.Prelude.{◌≡◌, Some};
ghost use Rattle.gl_words.specs.Call.{kinds_of};
ghost use Rattle.gl_words.specs.CallOf.{call_numbered};

use crate::call::Call;
use crate::making::made;

/// The kind of an argument (OpenGL ES 1.1.12, section 2.3; the ranges are own).
#[derive(Clone, Copy)]
pub enum ArgKind {
    /// An enumerant, 0 to 2^32 - 1.
    Enum,
    /// An unsigned number, 0 to 2^32 - 1.
    Unsigned,
    /// A signed number, -2^31 to 2^31 - 1.
    Int,
    /// A 16.16 fixed number, as its raw bits: -2^31 to 2^31 - 1.
    Fixed,
    /// A truth value, 0 or 1.
    Bool,
    /// An address in client memory, 0 to 2^32 - 1 bytes.
    Pointer,
}

/// A row of the table of calls: the number (own), the kind of each argument in order, and the row's call whose
/// arguments are 0. It is found by a name, and calls are made of it without a second search.
#[derive(Clone, Copy)]
pub struct Shape {
    pub id: u16,
    pub kinds: &'static [ArgKind],
    pub(crate) zero: &'static Call,
    ghost numbered: { call_numbered id ≡ Some zero.now },
    ghost same_kinds: { kinds.now ≡ kinds_of zero.now },
}

impl Shape {
    ghost use Rattle.std.specs.Prelude.{IfSome, ℤ, List};
    ghost use Rattle.gl_words.specs.Call.{id_of, arguments, IsInRange};
    ghost use Rattle.gl_words.specs.CallOf.{call_of};
    ghost use Rattle.gl_words.specs.declared.call.Call.{Call};

    /// The call of this shape with these arguments. None exactly where their number differs, or one is outside the
    /// range of its kind.
    pub fn call(&self, args: &[i64]) -> Option<Call>
        ensures gives { result ≡ call_of self.now.id args.now }
        ensures found { IfSome result
            (λ call. (id_of call ≡ self.now.id) × (arguments call ≡ args.now) × IsInRange call) }
        ensures only { (call : Call) → IsInRange call → id_of call ≡ self.now.id
            → arguments call ≡ args.now → result ≡ Some call }
    {
        made(*self.zero, self.kinds, args)
    }
}
