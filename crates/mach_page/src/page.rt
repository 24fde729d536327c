//! Writes a page.
ghost use Rattle.std.specs.Prelude.{OnOk};
ghost use Rattle.mach_xml.specs.Elements.{Adds, IsContent, IsElement};

use crate::script::{POLICY, SCRIPT};
use crate::style::RULES;
use crate::texts::Texts;
use mach_xml::{
    Attribute, Drawing, Tag, Value, write_empty, write_end, write_tag, write_text, write_texted,
};
use std::alloc::AllocError;

/// What stands before the element of a page in its file.
pub const DOCTYPE: &str = "<!DOCTYPE html>\n";

/// What the lines of the picture are.
const KEY: &str =
    "thick: receive right; thin: send right; dashed: send-once right; dotted: a request for a notice; \
boxes in a port: its queue, the first message at the left. Click an entry, or use the arrow keys.";

/// The buttons before the slider and behind it: what they do, the key that does it, and their letters.
const BACK: &[(&str, &str, &str)] = &[("first", "Home", "|<"), ("-1", "left arrow", "<")];

const ON: &[(&str, &str, &str)] = &[("1", "right arrow", ">"), ("last", "End", ">|")];

/// A page: a chart, texts of entries, and a picture of every state.
#[derive(Clone, Copy)]
pub struct Page<'a> {
    /// Its title.
    pub title: &'a str,
    /// The number of the entry of the first state.
    pub first: u64,
    /// The number of the last entry.
    pub last: u64,
    /// The rules of the chart and of the picture.
    pub rules: (&'static str, &'static str),
    /// The names of the chart's lifelines.
    pub names: &'a Drawing,
    /// The chart, whose groups have the numbers of their entries.
    pub chart: &'a Drawing,
    /// The picture of all states, whose groups have the entries for which they hold.
    pub scene: &'a Drawing,
    /// The texts of the entries behind the first state.
    pub texts: &'a Texts,
}

impl<'a> Page<'a> {
    /// Appends the page to `out`, without [`DOCTYPE`]. What is appended is an XML element.
    ///
    /// Returns `AllocError` if out of memory; `out` then has a part of it. Linear in the page.
    pub fn write(&self, out: &mut Vec<u8>) -> Result<(), AllocError>
        ensures { OnOk result (Adds IsElement out.old.items out.new.items) }
    {
        write_tag("html", &[words("lang", "en")], ">", out)?;
        self.write_head(out)?;
        self.write_body(out)?;
        write_end("html", out)?;
        Ok(())
    }

    /// Appends what a browser is told about the page, and its rules.
    fn write_head(&self, out: &mut Vec<u8>) -> Result<(), AllocError>
        ensures { OnOk result (Adds IsElement out.old.items out.new.items) }
    {
        write_tag("head", &[], ">", out)?;
        write_metas(out)?;
        write_texted(Tag::Title, &[], self.title.as_bytes(), out)?;
        self.write_rules(out)?;
        write_end("head", out)?;
        Ok(())
    }

    /// Appends the rules.
    fn write_rules(&self, out: &mut Vec<u8>) -> Result<(), AllocError>
        ensures { OnOk result (Adds IsContent out.old.items out.new.items) }
    {
        let (chart, scene) = self.rules;
        for rules in [chart, scene, RULES] {
            write_texted(Tag::Style, &[], rules.as_bytes(), out)?;
        }
        Ok(())
    }

    /// Appends what is shown, and the script.
    fn write_body(&self, out: &mut Vec<u8>) -> Result<(), AllocError>
        ensures { OnOk result (Adds IsElement out.old.items out.new.items) }
    {
        let attributes = [number("data-f", self.first), number("data-n", self.last)];
        write_tag("body", &attributes, ">", out)?;
        self.write_bar(out)?;
        self.write_left(out)?;
        self.write_right(out)?;
        write_texted(Tag::Script, &[], SCRIPT.as_bytes(), out)?;
        write_end("body", out)?;
        Ok(())
    }

    /// Appends the title, the buttons and the slider.
    fn write_bar(&self, out: &mut Vec<u8>) -> Result<(), AllocError>
        ensures { OnOk result (Adds IsElement out.old.items out.new.items) }
    {
        write_tag("div", &[words("class", "bar")], ">", out)?;
        write_texted(Tag::Heading, &[], self.title.as_bytes(), out)?;
        write_buttons(BACK, out)?;
        self.write_slider(out)?;
        write_buttons(ON, out)?;
        write_texted(Tag::Span, &[], &[], out)?;
        write_end("div", out)?;
        Ok(())
    }

    /// Appends the slider.
    fn write_slider(&self, out: &mut Vec<u8>) -> Result<(), AllocError>
        ensures { OnOk result (Adds IsElement out.old.items out.new.items) }
    {
        let attributes = [
            words("type", "range"),
            number("min", self.first),
            number("max", self.last),
            number("value", self.last),
            words("aria-label", "entry"),
        ];
        write_empty(Tag::Input, &attributes, out)
    }

    /// Appends the chart.
    fn write_left(&self, out: &mut Vec<u8>) -> Result<(), AllocError>
        ensures { OnOk result (Adds IsElement out.old.items out.new.items) }
    {
        write_tag("div", &[words("class", "left")], ">", out)?;
        self.names.write(out)?;
        self.chart.write(out)?;
        write_end("div", out)?;
        Ok(())
    }

    /// Appends the texts and the picture.
    fn write_right(&self, out: &mut Vec<u8>) -> Result<(), AllocError>
        ensures { OnOk result (Adds IsElement out.old.items out.new.items) }
    {
        write_tag("div", &[words("class", "right")], ">", out)?;
        self.write_say(out)?;
        self.scene.write(out)?;
        write_texted(Tag::Division, &[words("class", "key")], KEY.as_bytes(), out)?;
        write_end("div", out)?;
        Ok(())
    }

    /// Appends the texts of the entries.
    fn write_say(&self, out: &mut Vec<u8>) -> Result<(), AllocError>
        ensures { OnOk result (Adds IsElement out.old.items out.new.items) }
    {
        write_tag("div", &[words("class", "say")], ">", out)?;
        self.write_texts(out)?;
        write_end("div", out)?;
        Ok(())
    }

    /// Appends the text of each entry, with its number.
    fn write_texts(&self, out: &mut Vec<u8>) -> Result<(), AllocError>
        ensures { OnOk result (Adds IsContent out.old.items out.new.items) }
    {
        for index in 0..self.texts.len() {
            self.write_entry(index, out)?;
        }
        Ok(())
    }

    /// Appends the text of an entry. All but the last are off.
    fn write_entry(&self, index: usize, out: &mut Vec<u8>) -> Result<(), AllocError>
        ensures { OnOk result (Adds IsElement out.old.items out.new.items) }
    {
        let entry = self.first.saturating_add(index as u64).saturating_add(1);
        let class = if entry < self.last { "off" } else { "told" };
        let attributes = [
            words("class", class),
            number("data-a", entry),
            number("data-z", entry.saturating_add(1)),
        ];
        write_texted(Tag::Lines, &attributes, self.texts.get(index), out)
    }
}

/// Appends what a browser is told first: the encoding of the text, the width of its window, and the policy.
fn write_metas(out: &mut Vec<u8>) -> Result<(), AllocError>
    ensures { OnOk result (Adds IsContent out.old.items out.new.items) }
{
    let told = [
        [
            words("http-equiv", "Content-Type"),
            words("content", "text/html; charset=utf-8"),
        ],
        [
            words("name", "viewport"),
            words("content", "width=device-width"),
        ],
        [
            words("http-equiv", "Content-Security-Policy"),
            words("content", POLICY),
        ],
    ];
    for attributes in told {
        write_empty(Tag::Meta, &attributes, out)?;
    }
    Ok(())
}

/// Appends buttons.
fn write_buttons(
    buttons: &[(&'static str, &'static str, &'static str)],
    out: &mut Vec<u8>,
) -> Result<(), AllocError>
    ensures { OnOk result (Adds IsContent out.old.items out.new.items) }
{
    for button in buttons {
        let (does, key, letters) = *button;
        let attributes = [words("data-d", does), words("title", key)];
        write_texted(Tag::Button, &attributes, letters.as_bytes(), out)?;
    }
    Ok(())
}

/// Returns an attribute for words.
fn words<'a>(name: &'static str, words: &'a str) -> Attribute<'a> {
    Attribute {
        name,
        value: Value::Words(words),
    }
}

/// Returns an attribute for a number.
fn number<'a>(name: &'static str, number: u64) -> Attribute<'a> {
    Attribute {
        name,
        value: Value::Number(number),
    }
}
