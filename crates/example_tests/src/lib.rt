//! Tests of the driver for authors of drivers: its calls that go through the layer, beside the driver alone.
#![tactic(auto)]

#[cfg(test)]
mod counter;
