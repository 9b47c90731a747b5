//! A store that many threads share.
ghost use Rattle.std.specs.Prelude.{◌≡◌, false, IfOk, IsOkUnless, None};
ghost use Rattle.std.specs.Arc.{arc_value};
ghost use Rattle.occ_types.specs.declared.fault.Fault.TheVariants.{Memory};
ghost use Rattle.occ_client.specs.Clients.{fresh_client};
ghost use Rattle.occ_sharing.specs.Sharing.{IsHeldOf};

use crate::held::{Held, idle_clients};
use crate::places::{Missed, Place};
use crate::schema_copies::copy_of;
use crate::settings::Settings;
use crate::workers::Worker;
use occ_client::Client;
use occ_core::Core;
use occ_types::{Fault, Schema};
use std::alloc::{AllocError, Allocator};
use std::marker::Model;
use std::sync::Arc;

/// A store that many threads share: each has a handle of its own, or a worker that it made of one. Clauses see what the store was
/// opened with.
#[derive(Drop)]
pub struct SharedStore<A: Allocator> {
    alloc: A,
    place: Arc<Place<A>, A>,
}

impl<A: Allocator> Model for SharedStore<A> {
    ghost use Rattle.occ_model.specs.World.{Settings as Plain};

    ghost Value = { Plain };

    ghost view = { λ store. store.place.value };
}

impl<A: Allocator + Copy> SharedStore<A> {
    /// An empty store with these tables and so many sessions, numbered from 1, which keeps the last `keep` write sets for testing. Refused
    /// with `Memory` where there is none for it.
    pub fn open(
        alloc: A,
        schema: &Schema<A>,
        sessions: usize,
        keep: usize,
    ) -> Result<SharedStore<A>, Fault>
        ensures opened { IfOk result (λ store. store ≡ record { schema = schema.now; sessions = sessions; keep = keep }) }
        ensures memory { IsOkUnless result Memory }
    {
        let settings = Settings {
            schema: copy_of(alloc, schema)?,
            sessions,
            keep,
        };
        let held = empty_store(alloc, schema, sessions, keep)?;
        let place = Arc::new(alloc, Place::new(settings, held))?;
        Ok(SharedStore { alloc, place })
    }

    /// A further handle of the same store. Refused with `Memory` where it has too many to be counted.
    pub fn try_clone(&self) -> Result<SharedStore<A>, Fault>
        ensures same { IfOk result (λ store. store ≡ self.now) }
        ensures memory { IsOkUnless result Memory }
    {
        match Arc::try_clone(&self.place) {
            Ok(place) => Ok(SharedStore {
                alloc: self.alloc,
                place,
            }),
            Err(AllocError) => Err(Fault::Memory),
        }
    }

    /// A worker of the store, which has no session yet: `Worker::join` takes one. Refused with `Memory` where the store has too many
    /// handles to be counted.
    pub fn worker(&self) -> Result<Worker<A>, Fault>
        ensures ok { IfOk result (λ worker. worker ≡ record { settings = self.now; client = fresh_client 0; lease = None; holdings = 0 }) }
        ensures memory { IsOkUnless result Memory }
    {
        match Arc::try_clone(&self.place) {
            Ok(place) => Ok(Worker {
                alloc: self.alloc,
                place,
                client: Client::new(self.alloc, 0),
                lease: None,
                holdings: 0,
            }),
            Err(AllocError) => Err(Fault::Memory),
        }
    }
}

impl<A: Allocator> SharedStore<A> {
    /// What the store was opened with.
    pub fn settings(&self) -> &Settings<A>
        ensures { result.now ≡ self.now }
    {
        let place: &Place<A> = &self.place;
        place.settings()
    }

    /// Ends the store, and answers all that it had. Workers and handles may live on: each is told that the store has ended. Refused with
    /// `Again` while a worker has the core, and with `Ended`.
    pub fn end(&self) -> Result<Box<Held<A>, A>, Missed>
        ensures { IfOk result (λ held. IsHeldOf self.now held.value.core.world held.value.idle.items) }
    {
        let place: &Place<A> = &self.place;
        let held = place.take()?;
        place.leave_empty();
        Ok(held)
    }
}

// An empty store, of which all sessions are idle. Refused with `Memory` alone.
fn empty_store<A: Allocator + Copy>(
    alloc: A,
    schema: &Schema<A>,
    sessions: usize,
    keep: usize,
) -> Result<Box<Held<A>, A>, Fault>
    ensures fits { IfOk result (λ held. IsHeldOf (record { schema = schema.now; sessions = sessions; keep = keep }) held.value.core.world held.value.idle.items) }
    ensures memory { IsOkUnless result Memory }
{
    let idle = idle_clients(alloc, sessions)?;
    let copy = copy_of(alloc, schema)?;
    let core = Core::open(alloc, copy, sessions, keep)?;
    let held = Box::new(alloc, Held { core, idle })?;
    Ok(held)
}
