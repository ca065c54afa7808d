//! The laws of shadows and of captures: functions with an empty body, whose contract is the law.

ghost use Rattle.client_shadow.specs.Law.{CapturesServe, ShadowFollows};

use driver_trait::Machine;

/// A shadow that is the tracked part of a driver before a call is that after it, once it noted the call; own.
pub fn shadow_law<D: Machine>(_driver: &D)
    ensures { ShadowFollows D.tracked D.steps }
{}

/// Client memory and what is captured of it for a call that is put off have the same byte wherever the call reads, whatever
/// tracked state, memory and batches are: so no call is put off that may read any place; own.
pub fn capture_law()
    ensures { CapturesServe }
{}
