//! What no clause says of calls that are no crate's but this one's: how often a driver is asked.

mod asked;
