//! What becomes of a call, why it waits, and why a batch ends. What is found of a call is told in `trace.rt`.

/// Why a call waits for all calls before it; own.
#[derive(Clone, Copy, Debug, PartialEq, Eq)]
pub enum Cause {
    /// Its answer is the driver's (sections 2.5, 4.3.1 and 6.1).
    Asks,
    /// It waits whatever it asks (section 5.1).
    Finishes,
    /// Its spelling has so many slots, more than a batch.
    TooLong { slots: u64 },
    /// It may read any place of client memory, of which no pieces can be captured (section 2.9).
    ReadsAll,
}

/// What becomes of a call where it is issued; own.
#[derive(Clone, Copy, Debug, PartialEq, Eq)]
pub enum Fate {
    /// It is answered at once, from the tracked state that the layer keeps.
    Answered,
    /// All calls before it are carried out first, and then it.
    Waits(Cause),
    /// It is put into the batch with this number, from 1, of which so many slots are used with it.
    PutOff { batch: u64, slots: u64 },
}

/// Why a batch ends; own.
#[derive(Clone, Copy, Debug, PartialEq, Eq)]
pub enum Why {
    /// The next call that is put off doesn't fit behind its calls.
    Full,
    /// A call sends it on its way, which is its last one (section 5.1).
    Sent,
    /// The next call waits for all before it.
    Waits,
    /// No line follows.
    NoMore,
}

/// The end of a batch: its number, from 1, its calls, of which there is one at least, and the slots that they take; own.
#[derive(Clone, Copy, Debug, PartialEq, Eq)]
pub struct BatchEnd {
    pub number: u64,
    pub calls: u64,
    pub slots: u64,
    pub why: Why,
}
