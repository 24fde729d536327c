//! Lists of words that a word may have been meant for.
use mach_lint::Nearest;
use mach_say_play::Label;
use mach_words::Text;
use std::alloc::Global;

/// Words.
#[derive(Drop)]
pub(crate) struct List {
    words: Vec<Label>,
    // Whether a word was left out, for which there is no memory.
    lacks_word: bool,
}

impl List {
    /// Has no words yet.
    pub(crate) fn new(alloc: Global) -> List {
        List {
            words: Vec::new(alloc),
            lacks_word: false,
        }
    }

    /// Adds a word.
    pub(crate) fn add(&mut self, word: &Label) {
        if self.words.push(*word).is_err() {
            self.lacks_word = true;
        }
    }

    /// Writes the word that is nearest to this one. If none is near, writes the heading, and all words or `none`.
    pub(crate) fn write(&self, heading: &str, word: &[u8], out: &mut Text) {
        let mut nearest = Nearest::to(word);
        for known in self.words.as_slice() {
            nearest.consider(known.text(), *known);
        }
        match nearest.found() {
            Some(near) => {
                out.words("; did you mean ");
                out.quoted(near.text());
                out.words("?");
            }
            None => self.write_all(heading, out),
        }
    }

    /// Writes the heading, and all words or `none`.
    fn write_all(&self, heading: &str, out: &mut Text) {
        out.words(heading);
        if self.words.is_empty() {
            out.words("none");
        }
        let mut comma = "";
        for known in self.words.as_slice() {
            out.words(comma);
            out.plain(known.text());
            comma = ", ";
        }
        if self.lacks_word {
            out.words(", ..");
        }
    }
}
