//! A set of numbers below 256, a bit each.
ghost use Rattle.std.specs.Prelude.{◌≡◌, ◌<◌, ◌≤◌, ◌==◌, ℕ, true, false, if◌then◌else◌};
ghost use Rattle.std.specs.Int.{bit_at};
ghost use Rattle.name_space_base.specs.Bits.{has};

// How many words a set has, of 64 bits each.
const WORDS: usize = 4;

/// A set of numbers below 256.
#[derive(Clone, Copy, Drop)]
pub(crate) struct Bits {
    words: [u64; 4],
}

// The word with a bit set.
fn with_bit(word: u64, place: usize) -> u64
    requires { place < 64 }
    ensures { (i : ℕ) → i < 64 → bit_at result i ≡ (if i == place then 1 else bit_at word i) }
{
    word | 1 << place
}

// The word with a bit cleared.
fn without_bit(word: u64, place: usize) -> u64
    requires { place < 64 }
    ensures { (i : ℕ) → i < 64 → bit_at result i ≡ (if i == place then 0 else bit_at word i) }
{
    word & !(1 << place)
}

// The least bit that is clear, or 64.
fn first_clear(word: u64) -> usize
    ensures bound { result ≤ 64 }
    ensures below { (i : ℕ) → i < result → bit_at word i ≡ 1 }
    ensures clear { result < 64 → bit_at word result ≡ 0 }
{
    if word == u64::MAX {
        return 64;
    }
    word.trailing_ones() as usize
}

// The least bit from one on that is set, or 64.
fn next_set(word: u64, from: usize) -> usize
    requires { from < 64 }
    ensures bound { result ≤ 64 }
    ensures from { from ≤ result }
    ensures between { (i : ℕ) → from ≤ i → i < result → bit_at word i ≡ 0 }
    ensures present { result < 64 → bit_at word result ≡ 1 }
{
    let rest = word & (u64::MAX << from);
    if rest == 0 {
        return 64;
    }
    rest.trailing_zeros() as usize
}

impl Bits {
    // The empty set.
    pub(crate) fn new() -> Bits
        ensures { (i : ℕ) → i < 256 → has result.words i ≡ false }
    {
        Bits { words: [0; WORDS] }
    }

    // Puts a number in.
    pub(crate) fn insert(&mut self, number: usize)
        requires { number < 256 }
        ensures { (i : ℕ) → i < 256 → has self.new.words i ≡ (if i == number then true else has self.old.words i) }
    {
        self.words[number / 64] = with_bit(self.words[number / 64], number % 64);
    }

    // Takes a number out, if it is there.
    pub(crate) fn remove(&mut self, number: usize)
        requires { number < 256 }
        ensures { (i : ℕ) → i < 256 → has self.new.words i ≡ (if i == number then false else has self.old.words i) }
    {
        self.words[number / 64] = without_bit(self.words[number / 64], number % 64);
    }

    // The least number that is not in the set, or 256 where all are.
    #[inline(always)]
    pub(crate) fn first_absent(&self) -> usize
        ensures bound { result ≤ 256 }
        ensures below { (i : ℕ) → i < result → has self.now.words i ≡ true }
        ensures absent { result < 256 → has self.now.words result ≡ false }
    {
        for index in 0..WORDS {
            let found = first_clear(self.words[index]);
            if found < 64 {
                return 64 * index + found;
            }
        }
        64 * WORDS
    }

    // The least number of the set from this one on, or 256 where there is none.
    pub(crate) fn next_present(&self, from: usize) -> usize
        requires { from < 256 }
        ensures bound { result ≤ 256 }
        ensures from { from ≤ result }
        ensures between { (i : ℕ) → from ≤ i → i < result → has self.now.words i ≡ false }
        ensures present { result < 256 → has self.now.words result ≡ true }
    {
        let mut place = from % 64;
        for index in from / 64..WORDS {
            let found = next_set(self.words[index], place);
            if found < 64 {
                return 64 * index + found;
            }
            place = 0;
        }
        64 * WORDS
    }
}
