//! Reading and writing descriptors.
ghost use Rattle.std.specs.Prelude.{◌≡◌, ◌≢◌, ℕ, ◌+◌, ◌*◌, ◌/◌, ◌%◌, ◌^◌, ◌≤◌, ◌<◌, ◌⊎◌, ◌↔◌, ◌++◌, List, length, take, drop, IfOk, IfErr, IsTrue, true, false};
ghost use Rattle.mach_types.specs.Grammar.{NamesPorts, descriptor_text};
ghost use Rattle.mach_types.specs.Codes.{msg_number};
ghost use Rattle.mach_types.specs.TextGuards.{BadType, data_length, is_bit, word_at};
ghost use Rattle.mach_types.specs.declared.codes.MsgReturn.TheVariants.{SendMsgTooSmall};
ghost use Rattle.type_descriptor.specs.declared.descriptor.Descriptor.{Descriptor as AnyDescriptor};
ghost use Rattle.type_descriptor.specs.Fields.{HasFields, IsCutLong};
ghost use Rattle.type_descriptor.specs.Describes.{Describes, DescriptorRefuses, IsDescriptor, form_of, form_length, text_of};

use crate::words::{read_word, write_word};
use mach_types::MsgReturn;

/// The bytes of a short descriptor.
const SHORT_BYTES: usize = 4;
/// The bytes of a long descriptor.
const LONG_BYTES: usize = 12;
/// The bit of the first word for data that stands in the message itself.
const INLINE: u32 = 0x1000_0000;
/// The bit of the first word for the long form.
const LONG: u32 = 0x2000_0000;
/// The bit of the first word for memory that is taken from the sender.
const DEALLOCATE: u32 = 0x4000_0000;
/// The bit of the first word that stands for nothing.
const UNUSED: u32 = 0x8000_0000;

/// What stands in front of an item's data.
#[derive(Clone, Copy, Debug, PartialEq, Eq)]
pub struct Descriptor {
    /// The type of the data, at most 255; 16 to 21 are the dispositions of rights.
    pub name: u16,
    /// The bits of one datum; 32 for a right. At most 255 in the short form.
    pub size: u16,
    /// How many data there are; at most 4,095 in the short form.
    pub number: u32,
    /// Whether it is written in the long form, in 12 bytes in place of 4.
    pub long: bool,
}

/// Returns whether a word has a flag, one of the bits named above.
fn has(word: u32, flag: u32) -> bool
    requires { 0 < flag }
    ensures { IsTrue result ↔ (word / flag % 2 ≡ 1) }
{
    word / flag % 2 == 1
}

/// Returns whether a name is one of the dispositions of rights, 16 to 21.
fn names_ports(name: u16) -> bool
    ensures { IsTrue result ↔ NamesPorts name }
{
    (16..=21).contains(&name)
}

/// Returns whether no item has this first word with this name and this size.
fn is_bad_type(first: u32, name: u16, size: u16) -> bool
    ensures { IsTrue result ↔ BadType first name size }
{
    !has(first, INLINE)
        || has(first, DEALLOCATE)
        || has(first, UNUSED)
        || (has(first, LONG) && first % INLINE != 0)
        || (names_ports(name) && size != 32)
        || name > 255
}

/// What the first word of a short descriptor says.
fn short_fields(first: u32) -> Descriptor
    ensures name { result.name ≡ first % 2 ^ 8 }
    ensures size { result.size ≡ first / 2 ^ 8 % 2 ^ 8 }
    ensures number { result.number ≡ first / 2 ^ 16 % 2 ^ 12 }
    ensures long { result.long ≡ false }
{
    Descriptor {
        name: (first % 0x100) as u16,
        size: (first / 0x100 % 0x100) as u16,
        number: first / 0x1_0000 % 0x1000,
        long: false,
    }
}

/// What the second and the third word of a long descriptor say.
fn long_fields(second: u32, third: u32) -> Descriptor
    ensures name { result.name ≡ second % 2 ^ 16 }
    ensures size { result.size ≡ second / 2 ^ 16 }
    ensures number { result.number ≡ third }
    ensures long { result.long ≡ true }
{
    Descriptor {
        name: (second % 0x1_0000) as u16,
        size: (second / 0x1_0000) as u16,
        number: third,
        long: true,
    }
}

/// What the words of the descriptor at the front say, or that the long form ends too early.
fn read_fields(bytes: &[u8]) -> Result<Descriptor, MsgReturn>
    requires { 4 ≤ length bytes.now }
    ensures ok { IfOk result (λ d. HasFields bytes.now d) }
    ensures err { IfErr result (λ code. IsCutLong bytes.now × (code ≡ SendMsgTooSmall)) }
{
    let first = read_word(bytes, 0);
    if !has(first, LONG) {
        return Ok(short_fields(first));
    }
    if bytes.len() < LONG_BYTES {
        return Err(MsgReturn::SendMsgTooSmall);
    }
    Ok(long_fields(read_word(bytes, 4), read_word(bytes, 8)))
}

/// The descriptor at the front.
fn read_front(bytes: &[u8]) -> Result<Descriptor, MsgReturn>
    ensures ok { IfOk result (λ d. Describes bytes.now d) }
    ensures err { IfErr result (λ code. DescriptorRefuses bytes.now (msg_number code)) }
    ensures reads_back { (d : AnyDescriptor) (rest : List ℕ) → IsDescriptor d
        → bytes.now ≡ text_of d ++ rest → result ≡ Ok d }
{
    if bytes.len() < SHORT_BYTES {
        return Err(MsgReturn::SendMsgTooSmall);
    }
    let descriptor = read_fields(bytes)?;
    if is_bad_type(read_word(bytes, 0), descriptor.name, descriptor.size) {
        return Err(MsgReturn::SendInvalidType);
    }
    Ok(descriptor)
}

/// Reads the descriptor at an offset in bytes (IPC Interface, `mach_msg_type_t`). Whether its data ends
/// within the bytes is not judged here.
///
/// # Errors
/// Each comes only for its fault, and the first of these faults gives the code:
/// - [`MsgReturn::SendMsgTooSmall`]: fewer than 4 bytes left, or fewer than 12 for a long form.
/// - [`MsgReturn::SendInvalidType`]: one of these. The inline bit is clear, or the deallocate or the unused
///   bit is set. The short fields of a long form are not all zero. A right's size is not 32. A name is above
///   255.
///
/// Takes no memory, and looks at no byte but the descriptor's.
pub fn read_descriptor(bytes: &[u8], at: usize) -> Result<Descriptor, MsgReturn>
    ensures ok { IfOk result (λ d. Describes (drop at bytes.now) d) }
    ensures err { IfErr result (λ code. DescriptorRefuses (drop at bytes.now) (msg_number code)) }

    // A descriptor that was written is read, whatever follows it.
    ensures reads_back { (d : AnyDescriptor) (rest : List ℕ) → IsDescriptor d
        → drop at bytes.now ≡ text_of d ++ rest → result ≡ Ok d }
{
    if bytes.len() < at {
        return Err(MsgReturn::SendMsgTooSmall);
    }
    read_front(&bytes[at..])
}

/// How many bytes the descriptor itself takes: 4, or 12 in the long form.
pub fn descriptor_len(descriptor: &Descriptor) -> usize
    ensures { result ≡ form_length (form_of descriptor.now.long) }
{
    if descriptor.long {
        LONG_BYTES
    } else {
        SHORT_BYTES
    }
}

/// How many bytes of data follow the descriptor, padding not counted. Takes no memory.
pub fn data_len(descriptor: &Descriptor) -> u64
    ensures { result ≡ data_length descriptor.now.size descriptor.now.number }
{
    (u64::from(descriptor.number) * u64::from(descriptor.size) + 7) / 8
}

/// Writes the descriptor at an offset in bytes, and leaves all other bytes. It must be one that can be
/// read, and have room. Takes no memory.
pub fn write_descriptor(descriptor: &Descriptor, bytes: &mut [u8], at: usize)
    requires lawful { IsDescriptor descriptor.now }
    requires room { at + form_length (form_of descriptor.now.long) ≤ length bytes.old }
    ensures { bytes.new ≡ take at bytes.old ++ text_of descriptor.now
        ++ drop (at + form_length (form_of descriptor.now.long)) bytes.old }
{
    let (name, size) = (u32::from(descriptor.name), u32::from(descriptor.size));
    if descriptor.long {
        write_word(bytes, at, INLINE + LONG);
        write_word(bytes, at + 4, name + size * 0x1_0000);
        write_word(bytes, at + 8, descriptor.number);
    } else {
        write_word(
            bytes,
            at,
            name + size * 0x100 + descriptor.number * 0x1_0000 + INLINE,
        );
    }
}
