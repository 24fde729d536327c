//! Calls in the words of the notation.
use crate::kinds::{disposition_word, make_word, right_word, variant_word};
use crate::label::Label;
use crate::teller::Teller;
use crate::words::Actor;
use kernel_lock::Entry;
use mach_types::{Event, Name, Reply, TaskId};
use mach_words::Text;

/// For how many bytes there is room where nothing is said.
const ROOM: u32 = 256;

impl Teller {
    /// Writes the entry's call, and returns whether the notation has words for it: `None` if not. The statement of a new
    /// message goes to `out`.
    pub(crate) fn call(
        &mut self,
        actor: &Actor,
        event: &Event,
        entry: &Entry,
        line: &mut Text,
        out: &mut Text,
    ) -> Option<()> {
        match event {
            Event::Send(task, bytes) => self.send(*task, bytes.as_slice(), line, out),
            Event::Allocate(task, right) => self.make(*task, *right, None, &entry.reply, line),
            Event::AllocateName(task, right, name) => {
                self.make(*task, *right, Some(*name), &entry.reply, line)
            }
            Event::ExtractRight(task, name, disposition, to) => {
                self.extract((*task, *name, *disposition), *to, &entry.reply, line)
            }
            Event::InsertRight(to, under, task, name, disposition) => {
                self.insert(
                    (*task, *name, *disposition),
                    (*to, *under),
                    &entry.reply,
                    line,
                )
            }
            Event::Rename(task, name, to) => {
                self.rename(*task, *name, *to, &entry.reply, line);
                Some(())
            }
            event => self.plain_call(actor, event, line),
        }
    }

    /// Writes `port WORD`, or what makes another right.
    fn make(
        &mut self,
        task: TaskId,
        right: u32,
        chosen: Option<Name>,
        reply: &Reply,
        line: &mut Text,
    ) -> Option<()> {
        line.words(make_word(right)?);
        match reply {
            Reply::Name(name) => self.new_right(task, *name, line),
            _ => line.words("unmade"),
        }
        if let Some(chosen) = chosen {
            line.around(" as ", chosen.number(), "");
        }
        Some(())
    }

    /// Writes `give DISP NAME to TASK`; `None` if one of the words is missing.
    fn give(&self, right: (TaskId, Name, u32), to: TaskId, line: &mut Text) -> Option<()> {
        let (task, name, disposition) = right;
        line.words("give ");
        line.words(disposition_word(disposition)?);
        line.words(" ");
        self.name(task, name, line);
        line.words(" to ");
        line.plain(self.table.task(to)?.text());
        Some(())
    }

    /// Writes the call that gives a right under a fresh name.
    fn extract(
        &mut self,
        right: (TaskId, Name, u32),
        to: TaskId,
        reply: &Reply,
        line: &mut Text,
    ) -> Option<()> {
        let (task, name, _) = right;
        self.give(right, to, line)?;
        if let Reply::Right(fresh, _) = reply {
            let own = self.table.word(task, name);
            self.write_as(&own, to, *fresh, line);
        }
        Some(())
    }

    /// Gives a word to a fresh name of the task. Writes `as` and the word, if it isn't `own`.
    fn write_as(&mut self, own: &Option<Label>, task: TaskId, fresh: Name, line: &mut Text) {
        let word = self.new_word(task, fresh);
        if !is_word(own, &word) {
            line.words(" as ");
            line.plain(word.text());
        }
        self.bind(task, word, fresh);
    }

    /// Writes the call that gives a right under a chosen name.
    fn insert(
        &mut self,
        right: (TaskId, Name, u32),
        under: (TaskId, Name),
        reply: &Reply,
        line: &mut Text,
    ) -> Option<()> {
        let (task, name, _) = right;
        let (to, chosen) = under;
        self.give(right, to, line)?;
        line.around(" as ", chosen.number(), "");
        if let (Reply::Code(0), Some(word)) = (reply, self.table.word(task, name)) {
            self.bind(to, word, chosen);
        }
        Some(())
    }

    /// Writes `rename NAME to NUMBER`.
    fn rename(&mut self, task: TaskId, name: Name, to: Name, reply: &Reply, line: &mut Text) {
        self.named("rename ", task, name, line);
        line.around(" to ", to.number(), "");
        if let Reply::Code(0) = reply {
            self.table.rename(task, name, to);
        }
    }

    /// Writes a call that gives nothing a word.
    fn plain_call(&self, actor: &Actor, event: &Event, line: &mut Text) -> Option<()> {
        match event {
            Event::TaskTerminate(_) => line.words("end"),
            Event::Names(_) => line.words("names"),
            Event::Receive(task, name, room, keep) => {
                self.named("receive on ", *task, *name, line);
                write_buffer(*room, *keep, line);
            }
            Event::ReceiveAgain(_, waited, room, keep) => {
                if actor.waits != Some(*waited) {
                    return None;
                }
                line.words("wake");
                write_buffer(*room, *keep, line);
            }
            Event::RequestNotification(task, name, variant, sync, by, disposition) => {
                return self.request((*task, *name), *variant, *sync, (*by, *disposition), line);
            }
            Event::ModRefs(task, name, right, delta) => {
                self.named("change ", *task, *name, line);
                line.words(" ");
                line.words(right_word(*right)?);
                line.words(" by ");
                line.signed("", *delta);
            }
            Event::GetRefs(task, name, right) => {
                self.named("refs ", *task, *name, line);
                line.words(" ");
                line.words(right_word(*right)?);
            }
            event => return self.name_call(event, line),
        }
        Some(())
    }

    /// Writes a call with a name, and perhaps a number or a second name.
    fn name_call(&self, event: &Event, line: &mut Text) -> Option<()> {
        match event {
            Event::Deallocate(task, name) => self.named("drop ", *task, *name, line),
            Event::Destroy(task, name) => self.named("destroy ", *task, *name, line),
            Event::NameType(task, name) => self.named("type ", *task, *name, line),
            Event::ReceiveStatus(task, name) => self.named("status ", *task, *name, line),
            Event::SetStatus(task, name) => self.named("members ", *task, *name, line),
            Event::SetQlimit(task, name, number) => {
                self.counted("limit ", *task, *name, *number, line);
            }
            Event::SetMscount(task, name, number) => {
                self.counted("count ", *task, *name, *number, line);
            }
            Event::SetSeqno(task, name, number) => {
                self.counted("seqno ", *task, *name, *number, line);
            }
            Event::MoveMember(task, member, set) if set.number() == 0 => {
                self.named("move ", *task, *member, line);
                line.words(" out");
            }
            Event::MoveMember(task, member, set) => {
                self.paired("move ", " into ", *task, (*member, *set), line);
            }
            Event::InsertMember(task, member, set) => {
                self.paired("add ", " to ", *task, (*member, *set), line);
            }
            Event::ExtractMember(task, member, set) => {
                self.paired("remove ", " from ", *task, (*member, *set), line);
            }
            _ => return None,
        }
        Some(())
    }

    /// Writes words and a name.
    fn named(&self, words: &str, task: TaskId, name: Name, line: &mut Text) {
        line.words(words);
        self.name(task, name, line);
    }

    /// Writes words, a name and a number.
    fn counted(&self, words: &str, task: TaskId, name: Name, number: u32, line: &mut Text) {
        self.named(words, task, name, line);
        line.around(" ", number, "");
    }

    /// Writes words with two names.
    fn paired(
        &self,
        words: &str,
        between: &str,
        task: TaskId,
        names: (Name, Name),
        line: &mut Text,
    ) {
        self.named(words, task, names.0, line);
        self.named(between, task, names.1, line);
    }

    /// Writes `notify` or `forget`.
    fn request(
        &self,
        of: (TaskId, Name),
        variant: u32,
        sync: u32,
        by: (Name, u32),
        line: &mut Text,
    ) -> Option<()> {
        let variant = variant_word(variant)?;
        if by.0.number() == 0 && by.1 == 0 && sync == 0 {
            line.words("forget ");
            line.words(variant);
            self.named(" of ", of.0, of.1, line);
            return Some(());
        }
        line.words("notify ");
        line.words(variant);
        self.named(" of ", of.0, of.1, line);
        line.words(" by ");
        line.words(disposition_word(by.1)?);
        self.named(" ", of.0, by.0, line);
        if sync != 0 {
            line.around(" sync ", sync, "");
        }
        Some(())
    }
}

/// Writes for how many bytes there is room, and whether a longer message stays.
fn write_buffer(room: u32, keep: bool, line: &mut Text) {
    if room != ROOM {
        line.around(" room ", room, "");
    }
    if keep {
        line.words(" keep");
    }
}

/// Whether it is this word.
fn is_word(own: &Option<Label>, word: &Label) -> bool {
    match own {
        Some(own) => own.is(word),
        None => false,
    }
}
