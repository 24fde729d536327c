//! A server and a client, and a message between them: the program of `docs/EMBEDDING.md`.

use gelvonds::messages::{SendBody, SendHeader, read_received, unwritten_code, write_message};
use gelvonds::{Bytes, Code, Disposition, Kernel, Name, PortRight, Receipt, Right};
use std::alloc::Global;
use std::fmt;
use std::io::{self, Write};

fn exchange(alloc: Global, kernel: &mut Kernel) -> Result<Receipt, Code> {
    let server = kernel.create_task()?; // 2
    let client = kernel.create_task()?;
    let service = kernel.allocate(server, Right::Receive)?;
    let made = PortRight {
        disposition: Disposition::MakeSend,
        name: service,
    };
    kernel.insert_right(client, Name::new(1), server, made)?;
    let destination = PortRight {
        disposition: Disposition::CopySend, // 3
        name: Name::new(1),
    };
    let header = SendHeader {
        destination,
        reply: None,
        id: 7,
    };
    let bytes = write_message(alloc, &header, &SendBody::Raw(&[])).map_err(unwritten_code)?;
    kernel.send(client, Bytes::from_vec(bytes))?; // 4
    kernel.receive(server, service, 24, false)
}

fn tell<W: Write>(receipt: &Receipt, out: &mut W) -> io::Result<()> {
    let Receipt::Message(bytes) = receipt else {
        return writeln!(out, "no message");
    };
    match read_received(bytes.as_slice()) {
        Some(message) => {
            writeln!(
                out,
                "{} bytes, id {}",
                message.header.size, message.header.id
            ) // 5
        }
        None => Ok(()),
    }
}

fn run<W: Write>(alloc: Global, out: &mut W) -> io::Result<()> {
    let mut kernel = Kernel::new(alloc); // 1
    match exchange(alloc, &mut kernel) {
        Ok(receipt) => tell(&receipt, out),
        Err(code) => writeln!(out, "code {:08x}", code.number()),
    } // 6
}

fn main(rt: HostRuntime) -> io::Result<()> {
    run(rt.alloc(), &mut rt.stdout())
}

#[cfg(test)]
mod tests {
    use super::run;
    use std::test::*;

    #[test]
    fn the_message_comes(rt: HostRuntime) -> Result<(), Fail> {
        let mut out = Vec::new(rt.alloc());
        assert!(rt; run(rt.alloc(), &mut out).is_ok());
        assert!(rt; out.as_slice() == b"24 bytes, id 7\n".as_slice());
        Ok(())
    }
}
