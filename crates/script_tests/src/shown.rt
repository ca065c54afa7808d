//! What no clause says: that the calls succeed, and words, lines and images as the formats have them.

mod shown;
mod words;
