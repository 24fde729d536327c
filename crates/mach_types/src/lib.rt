//! The numbers, names, codes, calls and answers of Mach 3 port IPC.
//!
//! What stands in `specs/` is what every other crate's contracts speak in: numbers (`Numbers`),
//! rights as tokens (`Tokens`), messages as they lie in a queue (`Messages`), the texts of messages
//! (`Grammar`), their rights and words one by one (`Bodies`) and the order of refusals (`Guards`,
//! `TextGuards`).
#![tactic(auto)]

pub mod bits;
pub mod bytes;
pub mod calls;
pub mod codes;
pub mod identities;
pub mod limits;
pub mod profiles;
pub mod rights;
pub mod touched;

pub use bits::Options;
pub use bytes::{Bytes, NameList, NameTypes};
pub use calls::{Event, Reply, Status, Waited};
pub use codes::{Code, KernReturn, MsgReturn};
pub use identities::{Name, PortId, SetId, TaskId};
pub use profiles::Profile;
pub use rights::{Disposition, Right};
pub use touched::Touched;
