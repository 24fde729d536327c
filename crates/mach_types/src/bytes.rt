//! Lists in calls and answers: contracts see them as lists.
ghost use Rattle.std.specs.Prelude.{◌≡◌, ◌==◌, ◌&&◌, ◌↔◌, ℕ, List, IsTrue};
ghost use Rattle.std.proofs.Common.{rules};
ghost use Rattle.std.specs.Cmp.{partial_equiv_from_equiv};
ghost use Rattle.std.specs.Cmp.Lexicographic.{pointwise, lists_per, lists_equiv, nat_list_eq_equiv};
ghost use Rattle.std.specs.Cmp.Rules.{comparing};

use crate::identities::Name;
use std::alloc::AllocError;
use std::marker::Model;

/// The bytes of a message.
#[derive(Debug, Drop)]
pub struct Bytes {
    bytes: Vec<u8>,
}

impl Model for Bytes {
    ghost Value = { List ℕ };

    ghost view = { λ a. a.bytes.items };
}

impl Clone for Bytes {
    ghost is_clone = { λ old new. new ≡ old };

    fn clone(&self) -> Result<Bytes, AllocError> {
        Ok(Bytes::from_vec(self.bytes.clone()?))
    }
}

impl PartialEq for Bytes {
    ghost eq = { pointwise ◌==◌ };

    ghost laws = { partial_equiv_from_equiv nat_list_eq_equiv };

    fn eq(&self, other: &Bytes) -> bool
        ensures eq { result ≡ pointwise ◌==◌ self.now other.now }
        ensures same { IsTrue result ↔ (self.now ≡ other.now) }
    {
        self.bytes == other.bytes
    }
}

impl Eq for Bytes {
    ghost laws = { nat_list_eq_equiv };
}

impl Bytes {
    /// These bytes. Takes no memory.
    pub fn from_vec(bytes: Vec<u8>) -> Bytes
        ensures { result ≡ bytes.items }
    {
        Bytes { bytes }
    }

    /// The bytes, given back. Takes no memory.
    pub fn into_vec(self) -> Vec<u8>
        ensures { result.items ≡ self }
    {
        let Bytes { bytes } = self;
        bytes
    }

    /// The bytes, to read.
    pub fn as_slice(&self) -> &[u8]
        ensures { result.now ≡ self.now }
    {
        self.bytes.as_slice()
    }
}

/// Names with their types, names rising.
#[derive(Debug, Drop)]
pub struct NameTypes {
    entries: Vec<(Name, u32)>,
}

impl Model for NameTypes {
    ghost use Rattle.std.specs.Prelude.{ℕ, List};

    ghost Value = { List (ℕ × ℕ) };

    ghost view = { λ a. a.entries.items };
}

impl Clone for NameTypes {
    ghost is_clone = { λ old new. new ≡ old };

    fn clone(&self) -> Result<NameTypes, AllocError> {
        Ok(NameTypes::from_vec(self.entries.clone()?))
    }
}

impl PartialEq for NameTypes {
    ghost eq = { pointwise (λ a b. a.0 == b.0 && a.1 == b.1) };

    ghost laws = { lists_per (Prim.search (comparing, rules)) };

    fn eq(&self, other: &NameTypes) -> bool
        ensures eq { result ≡ pointwise (λ a b. a.0 == b.0 && a.1 == b.1) self.now other.now }
        ensures same { IsTrue result ↔ (self.now ≡ other.now) }
    {
        self.entries == other.entries
    }
}

impl Eq for NameTypes {
    ghost laws = { lists_equiv (Prim.search (comparing, rules)) };
}

impl NameTypes {
    /// These names and types. Takes no memory.
    pub fn from_vec(entries: Vec<(Name, u32)>) -> NameTypes
        ensures { result ≡ entries.items }
    {
        NameTypes { entries }
    }

    /// The names and types, to read.
    pub fn as_slice(&self) -> &[(Name, u32)]
        ensures { result.now ≡ self.now }
    {
        self.entries.as_slice()
    }
}

/// Names, rising.
#[derive(Debug, Drop)]
pub struct NameList {
    entries: Vec<Name>,
}

impl Model for NameList {
    ghost Value = { List ℕ };

    ghost view = { λ a. a.entries.items };
}

impl Clone for NameList {
    ghost is_clone = { λ old new. new ≡ old };

    fn clone(&self) -> Result<NameList, AllocError> {
        Ok(NameList::from_vec(self.entries.clone()?))
    }
}

impl PartialEq for NameList {
    ghost eq = { pointwise ◌==◌ };

    ghost laws = { partial_equiv_from_equiv nat_list_eq_equiv };

    fn eq(&self, other: &NameList) -> bool
        ensures eq { result ≡ pointwise ◌==◌ self.now other.now }
        ensures same { IsTrue result ↔ (self.now ≡ other.now) }
    {
        self.entries == other.entries
    }
}

impl Eq for NameList {
    ghost laws = { nat_list_eq_equiv };
}

impl NameList {
    /// These names. Takes no memory.
    pub fn from_vec(entries: Vec<Name>) -> NameList
        ensures { result ≡ entries.items }
    {
        NameList { entries }
    }

    /// The names, to read.
    pub fn as_slice(&self) -> &[Name]
        ensures { result.now ≡ self.now }
    {
        self.entries.as_slice()
    }
}
