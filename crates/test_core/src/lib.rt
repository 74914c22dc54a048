//! Tests of the protocol's image, called directly: the rules that one may break, its checkpoint,
//! the image that a run leaves, and the protocol that begins with it.
//!
//! No request asks for an image. Those that a run must leave come from outside: a model of the
//! rules in another language worked them out, which keeps the lists of what happened and no sums.
#![tactic(auto)]

#[cfg(test)]
mod bytes;
#[cfg(test)]
mod checkpoints;
#[cfg(test)]
mod checks;
#[cfg(test)]
mod images;
#[cfg(test)]
mod outcomes;
#[cfg(test)]
mod runs;
#[cfg(test)]
mod tables;
#[cfg(test)]
mod tests;
