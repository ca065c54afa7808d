//! Tests of whole runs, and of the report and the images by themselves.
#![tactic(auto)]

#[cfg(test)]
mod drawn;
#[cfg(test)]
mod faults;
#[cfg(test)]
mod limits;
#[cfg(test)]
mod objects;
#[cfg(test)]
mod parts;
#[cfg(test)]
mod rails;
#[cfg(test)]
mod runs;
#[cfg(test)]
mod texture_errors;
#[cfg(test)]
mod textures;
#[cfg(test)]
mod told;
#[cfg(test)]
mod ways;
#[cfg(test)]
mod workers;
