//! What one worker at a time has of a store.
ghost use Rattle.std.specs.Prelude.{◌≡◌, [], IfOk, IsOkUnless};
ghost use Rattle.std.specs.List.{All};
ghost use Rattle.occ_types.specs.declared.fault.Fault.TheVariants.{Memory};
ghost use Rattle.occ_sharing.specs.Sharing.{IsIdle};

use occ_client::Client;
use occ_core::Core;
use occ_types::Fault;
use std::alloc::Allocator;

/// What one worker at a time has of a store: its core, and the clients of the sessions that no worker has.
#[derive(Drop)]
pub struct Held<A: Allocator> {
    pub(crate) core: Core<A>,
    pub(crate) idle: Vec<Client<A>, A>,
}

impl<A: Allocator> Held<A> {
    /// The core, for all that it shows.
    pub fn core(&self) -> &Core<A>
        ensures { result.now.world ≡ self.now.core.world }
    {
        &self.core
    }
}

/// The clients of so many sessions, of which none has done anything. Refused with `Memory` alone.
pub(crate) fn idle_clients<A: Allocator + Copy>(
    alloc: A,
    sessions: usize,
) -> Result<Vec<Client<A>, A>, Fault>
    ensures idle { IfOk result (λ clients. All (IsIdle sessions) clients.items) }
    ensures memory { IsOkUnless result Memory }
{
    let mut clients = Vec::with_capacity(alloc, sessions)?;
    for done in 0..sessions {
        clients.push(Client::new(alloc, sessions - done))?;
    }
    Ok(clients)
}
