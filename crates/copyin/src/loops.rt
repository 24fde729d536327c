//! Receive rights in a message: whether they close a loop.
ghost use Rattle.std.specs.Prelude.{◌≡◌, ◌<◌, ◌++◌, MatchBool, [], ◌∷◌, IfOk, OnOk, OnErr, length};
ghost use Rattle.std.specs.List.{filter_map};
ghost use Rattle.message_codec.specs.Words.{inline_words};
ghost use Rattle.copyin_base.specs.Kept.{receive_of};
ghost use Rattle.copyin.specs.Loops.{MakesLoop};

use copyin_base::{Carried, World};
use mach_types::PortId;
use message_codec::INLINE_WORDS;
use std::alloc::{AllocError, Global};

/// Returns whether a message to the port that carries these rights would close a loop. It does where one is
/// the receive right of the port itself. It also does where one is that of a port in whose queue, through any
/// number of messages, the port's own receive right is.
///
/// Linear in the rights, and in the number of these messages where one is a receive right; each of up to
/// [`INLINE_WORDS`] receive rights follows them anew. So many rights take no memory. An error means that
/// memory for more was refused.
#[inline(always)]
pub(crate) fn makes_loop(
    world: &World,
    alloc: Global,
    port: PortId,
    rights: &[Carried],
) -> Result<bool, AllocError>
    ensures ok { IfOk result (λ makes. MatchBool makes (MakesLoop world.now.ports port rights.now) (¬ (MakesLoop world.now.ports port rights.now))) }
    ensures err { OnErr result (inline_words < length rights.now) }
{
    if rights.len() <= INLINE_WORDS {
        return Ok(any_leads_on(world, port, rights));
    }
    let moved = moved_ports(alloc, rights)?;
    if moved.is_empty() {
        return Ok(false);
    }
    Ok(world.closes_loop(port, moved.as_slice()))
}

// The ports whose receive rights are among these.
fn moved_ports(alloc: Global, rights: &[Carried]) -> Result<Vec<PortId>, AllocError>
    ensures { IfOk result (λ moved. moved.items ≡ filter_map receive_of rights.now) }
{
    let mut moved = Vec::new(alloc);
    for carried in rights {
        add_moved(&mut moved, carried)?;
    }
    Ok(moved)
}

// Adds the port whose receive right it is, if it is one.
fn add_moved(moved: &mut Vec<PortId>, carried: &Carried) -> Result<(), AllocError>
    ensures { OnOk result (moved.new.items ≡ moved.old.items ++ filter_map receive_of (carried.now ∷ [])) }
{
    if let Some(port) = carried.receive_port() {
        moved.push(port)?;
    }
    Ok(())
}

// Whether one of a few rights makes a loop.
fn any_leads_on(world: &World, port: PortId, rights: &[Carried]) -> bool
    ensures { MatchBool result (MakesLoop world.now.ports port rights.now) (¬ (MakesLoop world.now.ports port rights.now)) }
{
    for carried in rights {
        if leads_on(world, port, carried) {
            return true;
        }
    }
    false
}

// Whether it is a receive right that makes one.
#[inline(always)]
pub(crate) fn leads_on(world: &World, port: PortId, carried: &Carried) -> bool
    ensures { MatchBool result (MakesLoop world.now.ports port (carried.now ∷ [])) (¬ (MakesLoop world.now.ports port (carried.now ∷ []))) }
{
    match carried.receive_port() {
        Some(moved) => world.closes_loop(port, &[moved]),
        None => false,
    }
}
