//! Sums as JSON, for programs.

use script_trace::{Sums, error_name};
use serde_json::{Value, json};
use std::alloc::{AllocError as NoMemory, Global};

/// The sums of a trace with batches of so many slots, as an object.
pub fn json_of(alloc: Global, sums: &Sums, size: u32) -> Result<Value, NoMemory> {
    let mut waits = Vec::new(alloc);
    for wait in sums.waits.iter() {
        let name = wait.name;
        let cause = wait.cause.word();
        let count = wait.count;
        waits.push(json!(in alloc; {"call": name, "cause": cause, "count": count})?)?;
    }
    let mut errors = Vec::new(alloc);
    for error in sums.errors.iter() {
        let name = error.name;
        let kind = error_name(error.error);
        let count = error.count;
        let recorded = error.recorded;
        errors.push(
            json!(in alloc; {"call": name, "error": kind, "count": count, "recorded": recorded})?,
        )?;
    }
    let [full, sent, waited, last] = sums.ends;
    let [quarter, half, more, most, all] = sums.fills;
    let calls = sums.calls();
    let deferred = sums.deferred;
    let synchronised = sums.synchronised;
    let answered = sums.answered;
    let batches = sums.batches;
    let waits = Value::Array(waits);
    let errors = Value::Array(errors);
    json!(in alloc; {
        "calls": calls,
        "deferred": deferred,
        "synchronised": synchronised,
        "answered": answered,
        "batches": batches,
        "slots": size,
        "ends": {"full": full, "flush": sent, "wait": waited, "end": last},
        "used": [quarter, half, more, most, all],
        "waits": waits,
        "errors": errors
    })
}
