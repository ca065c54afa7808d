//! The laws of drivers, each as the contract of a function that does nothing.

ghost use Rattle.driver_trait.specs.Driver.{ReadsAlone, Follows, Answers, Replies};

use crate::driver::Machine;

/// A call does the same on memories that agree where it reads; own.
pub fn reads_alone_law<D: Machine>(_driver: &D)
    ensures { ReadsAlone D.tracked D.steps }
{}

/// A call leaves the tracked part that the table gives; own.
pub fn follows_law<D: Machine>(_driver: &D)
    ensures { Follows D.tracked D.steps }
{}

/// A call that asks for a number of the tracked part changes nothing, and replies that number; own.
pub fn answers_law<D: Machine>(_driver: &D)
    ensures { Answers D.tracked D.steps }
{}

/// Only calls that ask for something are answered; own.
pub fn replies_law<D: Machine>(_driver: &D)
    ensures { Replies D.tracked D.steps }
{}
