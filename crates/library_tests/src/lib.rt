//! Tests of the libraries that the tables stand on: each generic one once, at a type of its own, and the lists.
//!
//! What a library's calls do is proved, so no test repeats it. A crate with tests is proved twice, without them and
//! with them. They stand together here, so that each library is proved once; they name nothing of it but its public
//! calls.
#![tactic(auto)]

#[cfg(test)]
mod lists;
#[cfg(test)]
mod loops;
#[cfg(test)]
mod maps;
#[cfg(test)]
mod pages;
#[cfg(test)]
mod queues;
#[cfg(test)]
mod shared;
#[cfg(test)]
mod tagged;
