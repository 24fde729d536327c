//! How often a fresh name was counted at each index, modulo 256.
ghost use Rattle.std.specs.Prelude.{◌≡◌, ℕ, ◌+◌, ◌<◌, ◌≤◌, OnOk, OnErr, IsOk, max, min};
ghost use Rattle.std.specs.FinMap as map;
ghost use Rattle.tagged_names.specs.Names.{count_of, counted};

use crate::MOST_INDICES;
use std::alloc::{AllocError, Global};
use std::marker::Model;

// So many places are made at once.
const BLOCK: usize = 256;

/// A count for each index up to a greatest one.
#[derive(Drop)]
pub(crate) struct Counts {
    // By index. The first, of index 0, is not used.
    bytes: Vec<u8>,
}

impl Model for Counts {
    ghost use Rattle.tagged_names.specs.Counts.{CountsView, counts_code};

    ghost Value = { CountsView };

    ghost coded = { counts_code };

    ghost use Rattle.std.specs.Prelude.{length, ◌-◌};
    ghost use Rattle.tagged_names.specs.Counts.{given_in};

    ghost view = { λ a. record { given = given_in a.bytes.items; reach = length a.bytes.items - 1 } };
}

impl Counts {
    // No counts. Allocates nothing.
    pub(crate) fn new(alloc: Global) -> Counts
        ensures { result ≡ record { given = map.empty; reach = 0 } }
    {
        Counts {
            bytes: Vec::new(alloc),
        }
    }

    // The count of an index: 0 where nothing was counted.
    pub(crate) fn get(&self, index: u32) -> u8
        ensures { result ≡ count_of self.now.given index }
    {
        match self.bytes.get(index as usize) {
            Some(count) => *count,
            None => 0,
        }
    }

    // Makes places for the counts of the indices up to this one, at most 65,535, and for those of up to 511
    // more. An error means that memory was refused.
    #[inline(always)]
    pub(crate) fn reach(&mut self, index: usize) -> Result<(), AllocError>
        ensures given { self.new.given ≡ self.old.given }
        ensures kept { self.old.reach ≤ self.new.reach }
        ensures few { self.new.reach ≤ max self.old.reach (index + 511) }
        ensures ok { OnOk result (min index 65535 ≤ self.new.reach) }
        ensures err { OnErr result (self.new ≡ self.old) }
        ensures had_place { 0 < index → min index 65535 ≤ self.old.reach → IsOk result }
    {
        if index < self.bytes.len() {
            return Ok(());
        }
        self.lengthen(index.min(MOST_INDICES))
    }

    // Makes places for the counts of the indices up to this one, and for those of up to 511 more.
    #[inline(never)]
    fn lengthen(&mut self, index: usize) -> Result<(), AllocError>
        requires { index < 65536 }
        ensures given { self.new.given ≡ self.old.given }
        ensures kept { self.old.reach ≤ self.new.reach }
        ensures few { self.new.reach ≤ max self.old.reach (index + 511) }
        ensures ok { OnOk result (index ≤ self.new.reach) }
        ensures err { OnErr result (self.new ≡ self.old) }
        ensures had_place { 0 < index → index ≤ self.old.reach → IsOk result }
    {
        if self.bytes.len() <= index {
            self.bytes.resize((index / BLOCK + 2) * BLOCK, 0)?;
        }
        Ok(())
    }

    // Counts one more at an index that has a place.
    pub(crate) fn count(&mut self, index: u32)
        requires positive { 0 < index }
        requires place { index ≤ self.old.reach }
        ensures { self.new ≡ record self.old { given = counted self.old.given index } }
    {
        let count = self.bytes[index as usize];
        self.bytes[index as usize] = count.wrapping_add(1);
    }
}
