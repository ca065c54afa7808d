//! Laws over the definitions of traces: functions with an empty body, whose contract is the law.

ghost use Rattle.script_trace.specs.Law.{CauseLaw, TraceLaw};
ghost use Rattle.script_trace.specs.Errors.{ErrorLaw};

/// A trace counts what a run counts, and its batches end as those of the run are cut, of each script and with batches of each
/// size; own.
pub fn trace_law()
    ensures { TraceLaw }
{}

/// There is a cause exactly where a call waits; own.
pub fn cause_law()
    ensures { CauseLaw }
{}

/// The recorded error behind a call is the one before it with the error that an entry tells of the call (sections 2.5 and 2.9).
pub fn error_law()
    ensures { ErrorLaw }
{}
