//! The machine: what every call of Mach 3 port IPC may be answered, and the states before and after.
//!
//! There is no code here. `specs/` holds the definitions that the kernel's contracts cite, and
//! `docs/MODEL.md` says them in plain words; `proofs/` holds what follows from them for every state.
#![tactic(auto)]
