//! Tests of the renderer, and of a book of objects.
#![tactic(auto)]

#[cfg(test)]
mod book;
#[cfg(test)]
mod soft;
#[cfg(test)]
mod soft_draw;
#[cfg(test)]
mod soft_read;
#[cfg(test)]
mod soft_textured;
