//! Scripts, by who makes their calls.
ghost use Rattle.std.specs.Prelude.{◌≡◌, ◌+◌, ◌*◌, ◌<◌, ◌≤◌, max, [], ◌∷◌, ◌++◌, length, true, false, Err, OnOk};
ghost use Rattle.std.specs.Vec.{vec_capacity};
ghost use Rattle.tracer_base.specs.declared.blocks.ScriptLine.{ScriptLine as AnyLine};
ghost use Rattle.tracer_base.specs.Blocks.{said_line, said_text};
ghost use Rattle.mach_run_base.specs.Scripts.{IsScript, has_number, said_call, said_script};

use mach_msg_threads::Call;
use mach_types::Event;
use std::alloc::Global;
use text_reader::read_script_line;
use tracer_base::{MessageCall, ScriptLine, TextFault};

/// How many places a full list of calls gets at least, beside a quarter of its length.
const LEAST_GROWTH: usize = 16;

/// A block of a script: its number, and its calls in their order.
#[derive(Debug, Drop)]
pub struct ThreadCalls {
    /// From 1 to 64.
    pub number: u32,
    /// The calls that its thread makes.
    pub calls: Vec<Call>,
}

/// A script, line by line as far as it was read.
#[derive(Debug, Drop)]
pub struct Script {
    /// The calls ahead of the first message call and the first block.
    pub opening: Vec<Event>,
    /// The other calls ahead of the first block.
    pub main: Vec<Call>,
    /// The blocks, in their order.
    pub blocks: Vec<ThreadCalls>,
}

impl Script {
    /// No line. Takes no memory.
    pub fn new(alloc: Global) -> Script
        ensures { said_script result ≡ [] }
    {
        Script {
            opening: Vec::new(alloc),
            main: Vec::new(alloc),
            blocks: Vec::new(alloc),
        }
    }

    /// Reads one more line, which is to end in its one line feed.
    ///
    /// `Bad` comes where it is no call, no message call and no beginning of a block, or begins a block whose
    /// number was there; `OutOfMemory` where memory is refused.
    #[inline(always)]
    pub(crate) fn read_line(&mut self, alloc: Global, line: &[u8]) -> Result<(), TextFault>
        requires { IsScript (said_script self.old) }
        ensures ok { OnOk result ((said : AnyLine) × (said_line said ≡ line.now) × (said_script self.new ≡ said_script self.old ++ said ∷ [])) }
        ensures good { OnOk result (IsScript (said_script self.new)) }
        ensures bad { result ≡ Err TextFault.Bad → (said : AnyLine) → IsScript (said_script self.old ++ said ∷ []) → said_line said ≡ line.now → ⊥ }
    {
        match line {
            [text @ .., b'\n'] => self.read_text(alloc, text),
            _ => Err(TextFault::Bad),
        }
    }

    /// The same of a line without its line feed.
    #[inline(never)]
    fn read_text(&mut self, alloc: Global, text: &[u8]) -> Result<(), TextFault>
        requires { IsScript (said_script self.old) }
        ensures ok { OnOk result ((said : AnyLine) × (said_text said ≡ text.now) × (said_script self.new ≡ said_script self.old ++ said ∷ [])) }
        ensures good { OnOk result (IsScript (said_script self.new)) }
        ensures bad { result ≡ Err TextFault.Bad → (said : AnyLine) → IsScript (said_script self.old ++ said ∷ []) → said_text said ≡ text.now → ⊥ }
    {
        match read_script_line(alloc, text)? {
            ScriptLine::Call(event) => self.add_event(event),
            ScriptLine::Message(call) => self.add_call(as_call(call)),
            ScriptLine::Thread(number) => self.begin_block(alloc, number),
        }
    }

    /// One more call of the kernel.
    fn add_event(&mut self, event: Event) -> Result<(), TextFault>
        ensures ok { OnOk result (said_script self.new ≡ said_script self.old ++ AnyLine.Call event ∷ []) }
        ensures memory { result ≡ Err TextFault.Bad → ⊥ }
    {
        if self.main.is_empty() && self.blocks.is_empty() {
            make_place(&mut self.opening)?;
            self.opening.push(event)?;
            return Ok(());
        }
        self.add_call(Call::Event(event))
    }

    /// One more call of the last block, or of the main thread where there is no block.
    #[inline(never)]
    fn add_call(&mut self, call: Call) -> Result<(), TextFault>
        ensures ok { OnOk result (said_script self.new ≡ said_script self.old ++ said_call call ∷ []) }
        ensures memory { result ≡ Err TextFault.Bad → ⊥ }
    {
        let Some(mut block) = self.blocks.pop() else {
            make_place(&mut self.main)?;
            self.main.push(call)?;
            return Ok(());
        };
        make_place(&mut block.calls)?;
        block.calls.push(call)?;
        self.blocks.push(block)?;
        Ok(())
    }

    /// One more block, as yet without calls. `Bad` comes where its number was there.
    #[inline(never)]
    fn begin_block(&mut self, alloc: Global, number: u32) -> Result<(), TextFault>
        ensures ok { OnOk result (said_script self.new ≡ said_script self.old ++ AnyLine.Thread number ∷ []) }
        ensures new { OnOk result (has_number self.old.blocks.items number ≡ false) }
        ensures bad { result ≡ Err TextFault.Bad → has_number self.old.blocks.items number ≡ true }
    {
        if has(self.blocks.as_slice(), number) {
            return Err(TextFault::Bad);
        }
        let calls = Vec::new(alloc);
        self.blocks.push(ThreadCalls { number, calls })?;
        Ok(())
    }
}

/// Has the list grow by a quarter where it is full: a `push` would double it, and up to half of a long script's memory
/// would lie unused.
fn make_place<T>(list: &mut Vec<T>) -> Result<(), TextFault>
    ensures same { list.new.items ≡ list.old.items }
    ensures place { OnOk result (length list.new.items < vec_capacity list.new) }
    ensures few { 4 * vec_capacity list.new ≤ max (4 * vec_capacity list.old) (5 * length list.old.items + 64) }
    ensures memory { result ≡ Err TextFault.Bad → ⊥ }
{
    let length = list.len();
    if length < list.capacity() {
        return Ok(());
    }
    match list.reserve_exact(length / 4 + LEAST_GROWTH) {
        Ok(()) => Ok(()),
        Err(_) => Err(TextFault::OutOfMemory),
    }
}

/// Returns whether a block has this number.
fn has(blocks: &[ThreadCalls], number: u32) -> bool
    ensures { result ≡ has_number blocks.now number }
{
    for block in blocks {
        if block.number == number {
            return true;
        }
    }
    false
}

/// The call that the line says.
fn as_call(call: MessageCall) -> Call
    ensures { said_call result ≡ AnyLine.Message call }
{
    let MessageCall {
        task,
        options,
        name,
        room,
        bytes,
    } = call;
    Call::Msg {
        task,
        options,
        name,
        room,
        send: bytes,
    }
}
