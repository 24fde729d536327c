//! Which of the rules of names and sets a kernel goes by.

/// The rules that a kernel goes by, from its first step on.
#[derive(Clone, Copy, Debug, PartialEq, Eq)]
pub enum Profile {
    /// A fresh name is the least unused number from 1, and a port is in one set at most.
    One,
    /// A fresh name has an index, the least that no name in use has. Its low 8 bits are a generation, which
    /// counts the fresh names that were given at this index. A port is in one set at most.
    Two,
    /// Names as in the second, and a port may be in several sets.
    Three,
}
