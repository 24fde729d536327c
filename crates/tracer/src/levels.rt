//! How much an entry matters.
ghost use Rattle.std.specs.Prelude.{◌≡◌};
ghost use Rattle.tracer.specs.Levels.{level_of};

use kernel_lock::Entry;
use log::Level;
use mach_types::Reply;

/// `Warn` where the call was refused, which is a reply with another code than 0, where it found no message, or
/// one too long for its room; else `Info`. Constant time.
pub fn level(entry: &Entry) -> Level
    ensures { result ≡ level_of entry.now.reply }
{
    match &entry.reply {
        Reply::Code(code) if *code == 0 => Level::Info,
        Reply::Code(_) | Reply::Empty(_) | Reply::TooLarge(_) => Level::Warn,
        _ => Level::Info,
    }
}
