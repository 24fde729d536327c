//! The job `page`, and pictures of states.

use crate::chart::{Asked as Charted, Drawer, Form, Style};
use crate::source::Source;
use crate::whole::Whole;
use mach_chart::{Layout, MOST_LIFELINES};
use mach_fates::Ends;
use mach_page::{DOCTYPE, Page, Texts};
use mach_picture::{Part, Scheme};
use mach_scene::{BOTH, DARK, LIGHT, Shown as Drawn, draw_scene};
use mach_scene_base::{Scene, State};
use mach_show_base::{Done, Fault, Output, Shown, Teller, bad_line};
use mach_types::Profile;
use std::alloc::AllocError;
use std::io::{BufReader, Read, Write};
use tracer::{behind_heading, first_line};
use tracer_base::TextFault;

/// How many entries a page has at most.
const MOST_ENTRIES: u64 = 2_000;

/// What is asked for.
#[derive(Clone, Copy)]
enum Asked<'a> {
    /// A page of this title.
    Page(Option<&'a str>),
    /// A picture of the state after the entry of this number, in these colours.
    State(u64, Scheme),
}

/// Writes a page of the history that the reader has.
///
/// Returns the faults of a history and of the output, `TooLong` for more than 2,000 entries, and `TooWide` for a chart of more
/// than 64 lifelines. Makes the calls twice, and takes memory for the history, the chart and the page.
pub fn show_page<'a, R: Read>(
    shown: &Shown<'a, '_>,
    title: Option<&'a str>,
    reader: &mut BufReader<&mut R>,
    line: &mut Vec<u8>,
    out: &mut Output,
) -> Result<Done, Fault<'a>> {
    let whole = Whole::read(shown.alloc, shown.name, reader, line, out)?;
    let filter = shown.filter;
    let first = filter.from.max(1);
    let last = filter.to.min(whole.entries);
    if whole.text.is_empty() {
        return Err(Fault::NoHistory);
    }
    if first > last {
        return Ok(Done::Unseen(whole.entries));
    }
    if last.saturating_sub(first) >= MOST_ENTRIES {
        return Err(Fault::TooLong(whole.entries));
    }
    let window = Window { first, last };
    follow_whole(shown, &whole, &window, Asked::Page(title), out)
}

/// Draws the state after the entry of this number of the history that the reader has. Each thing is at the place that it has
/// on a page of the whole history. Of a history that is too long for a page only this state is placed.
///
/// Returns the faults of a history and of the output, and `TooFew` if there is no such entry. Makes the calls once, and takes
/// memory for the history and the picture.
pub fn show_picture<'a, R: Read>(
    shown: &Shown<'a, '_>,
    (number, scheme): (u64, Scheme),
    reader: &mut BufReader<&mut R>,
    line: &mut Vec<u8>,
    out: &mut Output,
) -> Result<Done, Fault<'a>> {
    let whole = Whole::read(shown.alloc, shown.name, reader, line, out)?;
    if whole.text.is_empty() {
        return Err(Fault::NoHistory);
    }
    if number > whole.entries {
        return Err(Fault::TooFew(whole.entries, number));
    }
    let window = if whole.entries <= MOST_ENTRIES {
        Window {
            first: 1,
            last: whole.entries,
        }
    } else {
        Window {
            first: number,
            last: number,
        }
    };
    follow_whole(shown, &whole, &window, Asked::State(number, scheme), out)
}

/// The entries whose states are noted, beside that before the first.
#[derive(Clone, Copy)]
struct Window {
    first: u64,
    last: u64,
}

/// Follows a whole history, and writes what is asked for.
fn follow_whole<'a>(
    shown: &Shown<'a, '_>,
    whole: &Whole,
    window: &Window,
    asked: Asked<'a>,
    out: &mut Output,
) -> Result<Done, Fault<'a>> {
    let (heading, _) = whole.line_at(0);
    let Some((profile, _)) = behind_heading(heading) else {
        return Err(Fault::NoHistory);
    };
    let mut source = Source::of(shown);
    if let Asked::State(..) = asked {
        source.filter.from = 1;
        source.filter.to = 0;
    }
    follow_profile(&source, whole, (window, asked), profile, out)
}

/// Follows a whole history of this profile. It owns the pager, and does nothing else.
fn follow_profile<'a>(
    source: &Source<'a>,
    whole: &Whole,
    task: (&Window, Asked<'a>),
    profile: Profile,
    out: &mut Output,
) -> Result<Done, Fault<'a>> {
    let (window, asked) = task;
    let charted = Charted {
        source: *source,
        style: Style {
            has_looks: true,
            form: Form::Terminal,
            title: None,
        },
    };
    let mut pager = Pager {
        drawer: Drawer::new(&charted, profile),
        scene: Scene::new(source.alloc),
        ends: Ends::new(source.alloc),
        window: *window,
    };
    pager.show(whole, profile, asked, out)
}

/// Tells the entries of a page in words, with what became of their messages.
fn tell_all<'a>(
    pager: &Pager<'a>,
    whole: &Whole,
    profile: Profile,
    texts: &mut Texts,
) -> Result<(), Fault<'a>> {
    let shown = Shown {
        name: pager.drawer.shown.name,
        alloc: pager.drawer.shown.alloc,
        filter: pager.drawer.shown.filter,
        labels: pager.drawer.shown.labels,
        ends: Some(&pager.ends),
    };
    let mut teller = Teller::new(&shown, profile);
    add_texts(&mut teller, whole, &pager.window, texts)
}

/// Adds the texts of the entries.
fn add_texts<'a>(
    teller: &mut Teller<'a, '_>,
    whole: &Whole,
    window: &Window,
    texts: &mut Texts,
) -> Result<(), Fault<'a>> {
    let (_, mut from) = whole.line_at(0);
    for number in 1..window.last.saturating_add(1) {
        let (line, behind) = whole.line_at(from);
        if !teller.tell(number, line)? {
            return Err(Fault::NotConfirmed(number));
        }
        if number >= window.first {
            texts.add(teller.text().whole()?)?;
        }
        from = behind;
    }
    Ok(())
}

/// Follows a history, draws its chart, and notes its states.
#[derive(Drop)]
struct Pager<'a> {
    drawer: Drawer<'a>,
    scene: Scene,
    // What became of messages.
    ends: Ends,
    window: Window,
}

impl<'a> Pager<'a> {
    /// Follows all entries, and writes what is asked for.
    fn show(
        &mut self,
        whole: &Whole,
        profile: Profile,
        asked: Asked<'a>,
        out: &mut Output,
    ) -> Result<Done, Fault<'a>> {
        self.read(whole)?;
        match asked {
            Asked::State(number, scheme) => self.write_state(number, scheme, out),
            Asked::Page(title) => {
                let title = title.unwrap_or(self.drawer.shown.name);
                self.tell_page(whole, profile, title, out)
            }
        }
    }

    /// Tells the entries in words, and writes a page. It owns the texts, and does nothing else.
    fn tell_page(
        &mut self,
        whole: &Whole,
        profile: Profile,
        title: &str,
        out: &mut Output,
    ) -> Result<Done, Fault<'a>> {
        let mut texts = Texts::new(self.drawer.shown.alloc);
        tell_all(self, whole, profile, &mut texts)?;
        self.write_page(title, &texts, out)
    }

    /// Follows all entries.
    fn read(&mut self, whole: &Whole) -> Result<(), Fault<'a>> {
        let (_, mut from) = whole.line_at(0);
        self.note(0)?;
        for number in 1..whole.entries.saturating_add(1) {
            let (line, behind) = whole.line_at(from);
            self.follow(number, line)?;
            self.note(number)?;
            from = behind;
        }
        Ok(())
    }

    /// Follows the entry of this number, whose line this is, and notes what became of messages.
    fn follow(&mut self, number: u64, line: &[u8]) -> Result<(), Fault<'static>> {
        match first_line(self.drawer.shown.alloc, line) {
            Ok((entry, _)) => {
                self.drawer.follow_entry(number, &entry)?;
                self.ends.note(&self.drawer.fates, &entry, number)?;
                Ok(())
            }
            Err(TextFault::Bad) => Err(bad_line(number.saturating_add(1), line)),
            Err(TextFault::OutOfMemory) => Err(Fault::OutOfMemory),
        }
    }

    /// Notes the state after the entry of this number, if it is in the window or just before it.
    fn note(&mut self, number: u64) -> Result<(), AllocError> {
        if number.saturating_add(1) < self.window.first || number > self.window.last {
            return Ok(());
        }
        note_state(&self.drawer, &mut self.scene)
    }

    /// Writes the picture of the state after an entry.
    fn write_state(
        &self,
        number: u64,
        scheme: Scheme,
        out: &mut Output,
    ) -> Result<Done, Fault<'a>> {
        let rules = match scheme {
            Scheme::Light => LIGHT,
            Scheme::Dark => DARK,
            Scheme::Both => BOTH,
        };
        let index = number.saturating_sub(self.window.first.saturating_sub(1));
        let shown = self.drawer.shown;
        let drawing = draw_scene(
            shown.alloc,
            &self.scene,
            shown.labels,
            Drawn::One(index),
            rules,
        )?;
        let mut text = Vec::new(shown.alloc);
        drawing.write(&mut text)?;
        out.write_all(text.as_slice())?;
        out.write_all(b"\n")?;
        Ok(Done::Well)
    }

    /// Writes a page with these texts.
    fn write_page(
        &mut self,
        title: &str,
        texts: &Texts,
        out: &mut Output,
    ) -> Result<Done, Fault<'a>> {
        let shown = self.drawer.shown;
        self.drawer.draw_early()?;
        let layout = Layout::new(shown.alloc, &mut self.drawer.chart, shown.labels)?;
        if layout.lifelines() > MOST_LIFELINES {
            return Err(Fault::TooWide(layout.lifelines() as u64));
        }
        let text = self.page_text(title, texts, &layout)?;
        out.write_all(DOCTYPE.as_bytes())?;
        out.write_all(text.as_slice())?;
        out.write_all(b"\n")?;
        Ok(Done::Well)
    }

    /// Returns the page with these texts.
    fn page_text(
        &self,
        title: &str,
        texts: &Texts,
        layout: &Layout,
    ) -> Result<Vec<u8>, AllocError> {
        let shown = self.drawer.shown;
        let first = self.window.first.saturating_sub(1);
        let names = self.drawer.draw_part(layout, Part::Names)?;
        let chart = self.drawer.draw_part(layout, Part::Rows)?;
        let scene = draw_scene(
            shown.alloc,
            &self.scene,
            shown.labels,
            Drawn::All(first),
            "",
        )?;
        let page = Page {
            title,
            first,
            last: self.window.last,
            rules: (Scheme::Both.rules(), BOTH),
            names: &names,
            chart: &chart,
            scene: &scene,
            texts,
        };
        let mut text = Vec::new(shown.alloc);
        page.write(&mut text)?;
        Ok(text)
    }
}

/// Notes the state that a drawer has reached.
fn note_state(drawer: &Drawer<'_>, scene: &mut Scene) -> Result<(), AllocError> {
    let state = State {
        follower: &drawer.follower,
        fates: &drawer.fates,
        labels: drawer.shown.labels,
    };
    scene.note(&state)
}
