//! Tests of what is read and written: messages, type descriptors, codes, and calls and replies as text.
//!
//! A crate with tests is proved twice, without them and with them. They stand together here, so that each
//! library is proved once; they name nothing of it but its public calls.
#![tactic(auto)]

#[cfg(test)]
mod codes;
#[cfg(test)]
mod descriptors;
#[cfg(test)]
mod messages;
#[cfg(test)]
mod texts;
#[cfg(test)]
mod written;
