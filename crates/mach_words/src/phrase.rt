//! Words with numbers between them.

/// Words, and up to two numbers between them. [`Text::phrase`](crate::Text::phrase) writes them.
#[derive(Clone, Copy)]
pub struct Phrase {
    pub(crate) before: &'static str,
    pub(crate) first: Option<u64>,
    pub(crate) between: &'static str,
    pub(crate) second: Option<u64>,
    pub(crate) after: &'static str,
}

impl Phrase {
    /// Has words alone. Constant time; takes no memory.
    pub fn words(words: &'static str) -> Phrase {
        Phrase {
            before: words,
            first: None,
            between: "",
            second: None,
            after: "",
        }
    }

    /// Has words around a number. Constant time; takes no memory.
    pub fn one(before: &'static str, number: u64, after: &'static str) -> Phrase {
        Phrase {
            before,
            first: Some(number),
            between: after,
            second: None,
            after: "",
        }
    }

    /// Has words around two numbers. Constant time; takes no memory.
    pub fn two(
        before: &'static str,
        first: u64,
        between: &'static str,
        second: u64,
        after: &'static str,
    ) -> Phrase {
        Phrase {
            before,
            first: Some(first),
            between,
            second: Some(second),
            after,
        }
    }
}
