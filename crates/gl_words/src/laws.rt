//! Laws over the table of calls: functions with an empty body, whose contract is the law.

ghost use Rattle.gl_words.specs.CallOf.{CallOfLaw};

/// The call found for a number and arguments is the one in range that has them, and no other.
pub fn call_law()
    ensures { CallOfLaw }
{}
