//! Named bits: of a message's header, and the options of `mach_msg`.
ghost use Rattle.std.specs.Prelude.{⊤, ◌≡◌, ◌==◌, [], ◌∷◌, codes};
ghost use Rattle.mach_types.specs.Bits.{send_msg_option, rcv_msg_option, send_timeout_option, rcv_timeout_option, rcv_large_option};

use bitflags::{Flag, Flags, bitflag_items};

/// The bit of a message's first word for a body of items (`MACH_MSGH_BITS_COMPLEX`). The low 16 bits of
/// that word are two dispositions, or kinds of rights where the message was received.
pub const COMPLEX: u32 = 0x8000_0000;

/// The options of `mach_msg` (IPC Interface, `mach_msg_option_t`). In this project the two timeout
/// options mean that the call does not wait.
#[derive(Clone, Copy, PartialEq, Eq, Debug)]
pub struct Options(u32);

bitflag_items! {
    impl Options: u32 {
        const SEND_MSG = 1;
        const RCV_MSG = 2;
        const SEND_TIMEOUT = 0x10;
        const RCV_TIMEOUT = 0x100;
        const RCV_LARGE = 0x800;
    }
}

impl Flags for Options {
    type Bits = u32;

    ghost exact = { ⊤ };

    ghost table = { (codes "SEND_MSG", send_msg_option) ∷ (codes "RCV_MSG", rcv_msg_option) ∷ (codes "SEND_TIMEOUT", send_timeout_option)
        ∷ (codes "RCV_TIMEOUT", rcv_timeout_option) ∷ (codes "RCV_LARGE", rcv_large_option) ∷ [] };

    ghost set_of = { λ p. p.0 };

    fn flags<'a>() -> &'a [Flag<Options>] {
        Options::FLAGS
    }

    fn bits(&self) -> u32 {
        self.0
    }

    fn from_bits_retain(bits: u32) -> Options {
        Options(bits)
    }
}
