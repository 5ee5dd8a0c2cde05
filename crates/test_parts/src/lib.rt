//! Tests of a machine's parts, of slot maps and of text, where the program can't show it.
//!
//! - `memory_tests`: each memory that is refused; `known_tests`: values of the manual; `refcache_tests` (over
//!   `trial`): worked rows.
//! - `map_tests` (over `script`): both slot maps.
//! - `line_tests`, `io_tests`: lines, and streams that fail; `picture_tests`: the texts of pictures are apart.
#![tactic(auto)]

#[cfg(test)]
mod io_tests;
#[cfg(test)]
mod known_tests;
#[cfg(test)]
mod line_tests;
#[cfg(test)]
mod map_tests;
#[cfg(test)]
mod memory_tests;
#[cfg(test)]
mod picture_tests;
#[cfg(test)]
mod refcache_tests;
#[cfg(test)]
mod script;
#[cfg(test)]
mod trial;
