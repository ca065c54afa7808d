//! A law of the step of calls, as the contract of a function that does nothing.

ghost use Rattle.std.specs.Prelude.{List};
ghost use Rattle.gl_memory.specs.Segment.{Segment};
ghost use Rattle.gl_words.specs.declared.call.Call.{Call};
ghost use Rattle.soft_driver.specs.Law.{StandsAlone};
ghost use Rattle.soft_driver.specs.Own.{Own};

/// A call that makes no event is the same beside all objects; own.
pub fn no_event_law()
    ensures { (own : Own) (call : Call) (memory : List Segment) → StandsAlone own call memory }
{}
