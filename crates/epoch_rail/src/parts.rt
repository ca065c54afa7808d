//! Makers of rails with workers, and their parts, as what they start workers with.

use crate::crew::Crew;
use driver_trait::Machine;
use std::marker::{Model, PhantomData};

/// Makes rails whose batches a worker carries out, and tells no journal; own.
#[derive(Drop)]
pub struct EpochMaker<D: Machine, C: Crew<D>> {
    pub(crate) crew: C,
    pub(crate) of: PhantomData<D>,
}

/// Makes the rails of one context, and tells no journal; own.
#[derive(Drop)]
pub struct EpochPart<D: Machine, C: Crew<D>> {
    pub(crate) crew: C,
    pub(crate) of: PhantomData<D>,
}

impl<D: Machine, C: Crew<D>> Model for EpochMaker<D, C> {
    ghost Value = { C };

    ghost view = { λ maker. maker.crew };

    ghost invariant = { λ maker. C.ready maker.crew };
}

impl<D: Machine, C: Crew<D>> Model for EpochPart<D, C> {
    ghost Value = { C };

    ghost view = { λ part. part.crew };

    ghost invariant = { λ part. C.ready part.crew };
}
