//! What C sees of calls and answers: codes with their names, and structs of plain numbers.
//!
//! `include/gelvonds.h` has the C side of each struct. The library for C, `gelvonds_c`, writes them through the pointers
//! of its functions.
#![tactic(auto)]

mod buffer;
pub mod codes;
mod message_call;
mod profiles;
mod status;
mod touched;
mod waited;

pub use buffer::{put_bytes, put_text, room_of};
pub use message_call::MessageCall;
pub use profiles::{number_of, profile_of};
pub use status::{PortStatus, port_status};
pub use touched::{TouchedPlaces, places};
pub use waited::{NOWHERE, WaitedFor, identity, waited_before, waited_for};
