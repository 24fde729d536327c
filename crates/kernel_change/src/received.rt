//! Under which names a received message gives receive rights.
ghost use Rattle.std.specs.Prelude.{◌≡◌, ◌≤◌, ◌+◌, ◌<◌, ◌++◌, ◌∷◌, [], ◌/◌, ◌%◌, ◌^◌, List, ℕ, length, drop, IfSome, IfNone, true, false};
ghost use Rattle.kernel_change.specs.Received.{body_names, first_words, front_of, head_length, item_length, item_names, received_by};

use mach_types::Name;
use type_descriptor::{Descriptor, data_len, descriptor_len, read_word};

/// The names under which a message gives receive rights, where they are three at most.
#[derive(Clone, Copy, Debug)]
pub(crate) enum Received {
    /// None.
    Nothing,
    /// This name alone.
    One(Name),
    /// These two, in order.
    Two(Name, Name),
    /// These three, in order.
    Three(Name, Name, Name),
    /// More.
    Several,
}

impl Received {
    /// Of a body of items. Linear in its items and in its receive rights.
    pub(crate) fn by(body: &[u8]) -> Received
        ensures { result ≡ received_by (body_names body.now) }
    {
        let mut received = Received::Nothing;
        let mut rest = body;
        while let Some(descriptor) = read_front(rest) {
            received = received.with_item(&descriptor, rest);
            rest = behind_item(&descriptor, rest);
        }
        received
    }

    /// With those of the item in front of these bytes, which has this descriptor.
    fn with_item(self, descriptor: &Descriptor, rest: &[u8]) -> Received
        requires { head_length descriptor.now ≤ length rest.now }
        ensures { (names : List ℕ) → self ≡ received_by names → result ≡ received_by (names ++ item_names descriptor.now rest.now) }
    {
        if descriptor.name != 16 {
            return self;
        }
        let (_, words) = rest.split_at(descriptor_len(descriptor));
        self.with_words(descriptor.number, words)
    }

    /// With the first words of these bytes: so many, or as many as there are.
    fn with_words(self, number: u32, words: &[u8]) -> Received
        ensures { (names : List ℕ) → self ≡ received_by names → result ≡ received_by (names ++ first_words number words.now) }
    {
        let mut received = self;
        let mut rest = words;
        let mut left = number;
        while left > 0 && rest.len() >= 4 {
            received = received.with(Name::new(read_word(rest, 0)));
            let (_, behind) = rest.split_at(4);
            rest = behind;
            left -= 1;
        }
        received
    }

    /// With this name.
    fn with(self, name: Name) -> Received
        ensures { (names : List ℕ) → self ≡ received_by names → result ≡ received_by (names ++ name ∷ []) }
    {
        match self {
            Received::Nothing => Received::One(name),
            Received::One(a) => Received::Two(a, name),
            Received::Two(a, b) => Received::Three(a, b, name),
            Received::Three(..) | Received::Several => Received::Several,
        }
    }
}

/// The descriptor in front of these bytes, if a word or more is behind it.
fn read_front(bytes: &[u8]) -> Option<Descriptor>
    ensures some { IfSome result (λ d. (d ≡ front_of bytes.now) × (head_length d + 4 ≤ length bytes.now)) }
    ensures none { IfNone result (length bytes.now < head_length (front_of bytes.now) + 4) }
{
    if bytes.len() < 8 {
        return None;
    }
    let first = read_word(bytes, 0);
    if first / 0x2000_0000 % 2 == 0 {
        return Some(short_front(first));
    }
    if bytes.len() < 16 {
        return None;
    }
    Some(long_front(read_word(bytes, 4), read_word(bytes, 8)))
}

/// The descriptor of the short form in this word.
fn short_front(first: u32) -> Descriptor
    ensures name { result.name ≡ first % 2 ^ 8 }
    ensures size { result.size ≡ first / 2 ^ 8 % 2 ^ 8 }
    ensures number { result.number ≡ first / 2 ^ 16 % 2 ^ 12 }
    ensures long { result.long ≡ false }
{
    Descriptor {
        name: (first % 0x100) as u16,
        size: (first / 0x100 % 0x100) as u16,
        number: first / 0x1_0000 % 0x1000,
        long: false,
    }
}

/// The descriptor of the long form whose second and third words these are.
fn long_front(second: u32, third: u32) -> Descriptor
    ensures name { result.name ≡ second % 2 ^ 16 }
    ensures size { result.size ≡ second / 2 ^ 16 }
    ensures number { result.number ≡ third }
    ensures long { result.long ≡ true }
{
    Descriptor {
        name: (second % 0x1_0000) as u16,
        size: (second / 0x1_0000) as u16,
        number: third,
        long: true,
    }
}

/// The bytes behind the item in front of these, which has this descriptor. None are left where it ends too late.
fn behind_item<'a>(descriptor: &Descriptor, rest: &'a [u8]) -> &'a [u8]
    requires { head_length descriptor.now ≤ length rest.now }
    ensures { result.now ≡ drop (item_length descriptor.now) rest.now }
{
    let (_, data) = rest.split_at(descriptor_len(descriptor));
    let length = data_len(descriptor).min(data.len() as u64) as usize;
    let whole = (length + 3) / 4 * 4;
    let (_, behind) = data.split_at(whole.min(data.len()));
    behind
}
