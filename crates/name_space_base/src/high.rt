//! Values by numbers of any size, in a tree, and a place apart from it for one number.
ghost use Rattle.std.specs.Prelude.{◌≡◌, ◌⊎◌, ◌≤◌, ◌↔◌, ℕ, IsTrue, true, Some, None, IsSome, is_some, IfSome, IfNone, OnOk, OnErr, option_copied};
ghost use Rattle.std.specs.BTreeMap.{get as value_in, Updates};
ghost use Rattle.std.specs.FinMap as map;
ghost use Rattle.std.specs.Ordering.{nat_cmp};
ghost use Rattle.name_space_base.specs.Pages.{IsNextUsed};
ghost use Rattle.name_space_base.specs.High.{with_kept, least_name, HasApart, KeepsUsed};

use std::alloc::{AllocError, Global};
use std::collections::BTreeMap;
use std::marker::Model;

/// Values by names of any 32 bits, and a place for one name, in use or not. All calls but
/// [`High::keep`] take no memory.
#[derive(Drop)]
pub struct High<V: Copy> {
    // All but the value under the name for which the place is kept.
    others: BTreeMap<u32, V>,
    kept: Option<u32>,
    value: Option<V>,
}

impl<V: Copy> Model for High<V> {
    ghost use Rattle.name_space_base.specs.High.{HighView, high_code};

    ghost Value = { HighView V };

    ghost coded = { high_code V.code };

    ghost use Rattle.std.specs.FinMap as map;
    ghost use Rattle.name_space_base.specs.High.{with_kept, HasApart};

    ghost view = { λ a. record { names = with_kept a.kept a.value (map.from_entries a.others.entries); kept = a.kept } };

    ghost invariant = { λ a. HasApart a.kept (map.from_entries a.others.entries) };
}

impl<V: Copy> High<V> {
    /// No values, and no place. Allocates nothing; constant time.
    pub fn new(alloc: Global) -> High<V>
        ensures { result ≡ record { names = map.empty; kept = None } }
    {
        High {
            others: BTreeMap::new(alloc),
            kept: None,
            value: None,
        }
    }

    /// Returns whether the place is kept for the name. Constant time.
    pub fn keeps(&self, name: u32) -> bool
        ensures { IsTrue result ↔ (self.now.kept ≡ Some name) }
    {
        match self.kept {
            Some(kept) => kept == name,
            None => false,
        }
    }

    /// The name for which the place is kept, if there is one. Constant time.
    pub fn kept(&self) -> Option<u32>
        ensures { result ≡ self.now.kept }
    {
        self.kept
    }

    // Where the value under the name lies.
    fn held(&self, name: u32) -> Option<&V>
        ensures { option_copied result ≡ map.get self.now.names name }
    {
        if self.keeps(name) {
            self.value.as_ref()
        } else {
            self.others.get(&name)
        }
    }

    /// The value under the name, if the name is in use. Constant time for the name for which the place
    /// is kept, else logarithmic in the number of names.
    // Read in one place, which keeps it short enough to be inlined where a name is looked up.
    pub fn get(&self, name: u32) -> Option<V>
        ensures { result ≡ map.get self.now.names name }
    {
        self.held(name).copied()
    }

    // The name for which the place is kept, if it is in use.
    fn kept_in_use(&self) -> Option<u32>
        ensures found { IfSome result (λ name. (self.now.kept ≡ Some name) × (map.contains_key self.now.names name ≡ true)) }
        ensures none { IfNone result ((name : ℕ) → self.now.kept ≡ Some name → map.get self.now.names name ≡ None) }
    {
        let kept = self.kept?;
        match self.value {
            Some(_) => Some(kept),
            None => None,
        }
    }

    /// Whether the tree and the place are both empty, so that no name is in use. Constant time.
    #[inline(always)]
    pub fn is_empty(&self) -> bool
        ensures { IsTrue result → (name : ℕ) → map.get self.now.names name ≡ None }
    {
        self.others.is_empty() && self.value.is_none()
    }

    /// The least name from this one on that is in use. Logarithmic in the number of names.
    #[inline(never)]
    pub fn next(&self, from: u32) -> Option<u32>
        ensures found { IfSome result (λ name. IsNextUsed self.now.names from name) }
        ensures none { IfNone result ((n : ℕ) → from ≤ n → map.get self.now.names n ≡ None) }
    {
        let other = next_in(&self.others, from);
        match self.kept_in_use() {
            Some(kept) if from <= kept => Some(least(kept, other)),
            _ => other,
        }
    }

    /// Keeps the place for the name, and for no other. Logarithmic in the number of names.
    ///
    /// An error means that memory was refused, and that the name that had the place is in use; nothing
    /// is then changed.
    pub fn keep(&mut self, name: u32) -> Result<(), AllocError>
        ensures ok { OnOk result (self.new ≡ record self.old { kept = Some name }) }
        ensures err { OnErr result (self.new ≡ self.old) }
        ensures wanted { OnErr result (KeepsUsed self.old.names self.old.kept) }
    {
        lay_back(&mut self.others, self.kept, self.value)?;
        self.value = self.others.remove(&name);
        self.kept = Some(name);
        Ok(())
    }

    /// Puts a value under a name that is in use, or for which the place is kept. Takes no memory.
    /// Constant time for the name for which the place is kept, else logarithmic in the number of names.
    // Names that come here are few: what is done for them stays out of the way of the others.
    #[inline(never)]
    pub fn put(&mut self, name: u32, value: V)
        requires place { (map.contains_key self.old.names name ≡ true) ⊎ (self.old.kept ≡ Some name) }
        ensures { self.new ≡ record self.old { names = map.insert self.old.names name value } }
    {
        if self.keeps(name) {
            self.value = Some(value);
        } else {
            replace(&mut self.others, name, value);
        }
    }

    /// Takes out the value under the name, and returns it. The place stays with its name. Constant time
    /// for the name for which the place is kept, else logarithmic in the number of names.
    #[inline(never)]
    pub fn remove(&mut self, name: u32) -> Option<V>
        ensures value { result ≡ map.get self.old.names name }
        ensures after { self.new ≡ record self.old { names = map.remove self.old.names name } }
    {
        if self.keeps(name) {
            self.value.take()
        } else {
            self.others.remove(&name)
        }
    }
}

// The least key from this one on.
fn next_in<V: Copy>(others: &BTreeMap<u32, V>, from: u32) -> Option<u32>
    ensures found { IfSome result (λ name. IsNextUsed (map.from_entries {R = nat_cmp} others.now.entries) from name) }
    ensures none { IfNone result ((n : ℕ) → from ≤ n → map.get (map.from_entries {R = nat_cmp} others.now.entries) n ≡ None) }
{
    let (name, _) = others.range(from..).next()?;
    Some(*name)
}

// The lesser of a name and one that may not be there.
fn least(name: u32, other: Option<u32>) -> u32
    ensures { result ≡ least_name name other }
{
    match other {
        Some(other) if other < name => other,
        _ => name,
    }
}

// Puts in the value under a name, if there is one.
fn lay_back<V: Copy>(
    others: &mut BTreeMap<u32, V>,
    kept: Option<u32>,
    value: Option<V>,
) -> Result<(), AllocError>
    requires { HasApart kept (map.from_entries {R = nat_cmp} others.old.entries) }
    ensures ok { OnOk result (map.from_entries {R = nat_cmp} others.new.entries ≡ with_kept kept value (map.from_entries others.old.entries)) }
    ensures err { OnErr result (others.new.entries ≡ others.old.entries) }
    ensures wanted { OnErr result ((name : ℕ) × (kept ≡ Some name) × (is_some value ≡ true)) }
{
    let Some(kept) = kept else {
        return Ok(());
    };
    let Some(value) = value else {
        return Ok(());
    };
    others.insert(kept, value)?;
    Ok(())
}

// Puts a value in place of the one under a name.
fn replace<V: Copy>(others: &mut BTreeMap<u32, V>, name: u32, value: V)
    requires { IsSome (value_in nat_cmp others.old name) }
    ensures { Updates nat_cmp others.old others.new name (Some value) }
{
    if let Some(held) = others.get_mut(&name) {
        *held = value;
    }
}
