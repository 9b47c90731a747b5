//! Workers: each is what one thread at a time uses of a store.
ghost use Rattle.std.specs.Prelude.{⊤, ◌≡◌, ◌⊎◌, ◌<◌, true, false, None, Some, is_some, option_map, Ok, Err, IfOk, IsOk, IsOkUnless, MatchOption, MatchResult, OnOk, OnErr};
ghost use Rattle.std.specs.Arc.{arc_value};
ghost use Rattle.std.specs.List.{All};
ghost use Rattle.std.specs.Result.{result_err};
ghost use Rattle.occ_types.specs.declared.fault.Fault.TheVariants as faults;
ghost use Rattle.occ_model.specs.Invariant.{Invariant};
ghost use Rattle.occ_sharing.specs.Sharing.{DidNothing, InOneHolding, IsHeldOf, IsIdle, Joins, Leaves, one_more};

use crate::held::Held;
use crate::places::{Missed, Place};
use crate::settings::Settings;
use occ_client::Client;
use occ_types::Fault;
use std::alloc::Allocator;
use std::marker::Model;
use std::mem;
use std::sync::Arc;

/// What one thread at a time uses of a store: a client with its session, and in a lease the core. Each call takes the core for one event
/// and puts it back, or answers that it did nothing. In a lease it keeps the core until `release`, and then no call of any other worker
/// does anything.
#[derive(Drop)]
pub struct Worker<A: Allocator> {
    pub(crate) alloc: A,
    pub(crate) place: Arc<Place<A>, A>,
    pub(crate) client: Client<A>,
    pub(crate) lease: Option<Box<Held<A>, A>>,
    pub(crate) holdings: u64,
}

impl<A: Allocator> Model for Worker<A> {
    ghost use Rattle.std.specs.Prelude.{◌≡◌, false, option_map, IfSome};
    ghost use Rattle.std.specs.Coded.{codes};
    ghost use Rattle.std.specs.FinMap as finite;
    ghost use Rattle.occ_sharing.specs.Sharing.{Worker as Plain, IsHeldOf, IsReady};

    ghost Value = { Plain };

    ghost coded = { Prim.hlevel (codes, finite.code) };

    ghost view = { λ w. record { settings = w.place.value; client = w.client; lease = option_map (λ held. held.value.core.world) w.lease; holdings = w.holdings } };

    ghost invariant = { λ w. IsReady w.place.value.sessions w.client × IfSome w.lease (λ held. IsHeldOf w.place.value held.value.core.world held.value.idle.items) };
}

/// The core in one holding, and whether it is that of a lease.
pub(crate) struct Holding<A: Allocator> {
    pub(crate) held: Box<Held<A>, A>,
    pub(crate) leased: bool,
}

impl<A: Allocator> Worker<A> {
    /// What the store was opened with.
    pub fn settings(&self) -> &Settings<A>
        ensures { result.now ≡ self.now.settings }
    {
        let place: &Place<A> = &self.place;
        place.settings()
    }

    /// The session, or 0 where it has none.
    pub fn session(&self) -> usize
        ensures { result ≡ self.now.client.session }
    {
        self.client.session()
    }

    /// Whether a transaction is open.
    pub fn is_open(&self) -> bool
        ensures { result ≡ is_some self.now.client.current }
    {
        self.client.is_open()
    }

    /// Whether it keeps the core.
    pub fn is_leased(&self) -> bool
        ensures { result ≡ is_some self.now.lease }
    {
        self.lease.is_some()
    }

    /// Keeps the core for the calls from now on, where no other worker has it.
    pub fn lease(&mut self) -> Result<(), Missed>
        ensures ok { OnOk result ((self.new ≡ record self.old { lease = self.new.lease }) × (is_some self.new.lease ≡ true)) }
        ensures had { is_some self.old.lease ≡ true → IsOk result × (self.new ≡ self.old) }
        ensures missed { OnErr result (DidNothing self.old self.new) }
    {
        if self.lease.is_some() {
            return Ok(());
        }
        let place: &Place<A> = &self.place;
        let taken = place.take()?;
        self.lease = Some(taken);
        Ok(())
    }

    /// Puts the core of a lease back.
    pub fn release(&mut self)
        ensures client { self.new ≡ record self.old { lease = self.new.lease } }
        ensures kept { (self.new.lease ≡ None) ⊎ (self.new.lease ≡ self.old.lease) }
    {
        if let Some(held) = self.lease.take() {
            let place: &Place<A> = &self.place;
            self.lease = place.give(held);
        }
    }

    // Takes the core for one event: that of the lease, or else that in the place. The holding is counted.
    pub(crate) fn take(&mut self) -> Result<Holding<A>, Missed>
        ensures fits { IfOk result (λ holding. IsHeldOf self.old.settings holding.held.value.core.world holding.held.value.idle.items) }
        ensures lawful { IfOk result (λ holding. Invariant holding.held.value.core.world) }
        ensures leased { IfOk result (λ holding. holding.leased ≡ is_some self.old.lease) }
        ensures begins { IfOk result (λ holding. MatchOption self.old.lease ⊤ (λ world. holding.held.value.core.world ≡ world)) }
        ensures left { OnOk result (self.new ≡ record self.old { lease = None; holdings = one_more self.old.holdings }) }
        ensures missed { OnErr result (DidNothing self.old self.new) }
    {
        let holding = match self.lease.take() {
            Some(held) => Holding { held, leased: true },
            None => {
                let place: &Place<A> = &self.place;
                Holding {
                    held: place.take()?,
                    leased: false,
                }
            }
        };
        holding.held.core.law();
        self.holdings = self.holdings.wrapping_add(1);
        Ok(holding)
    }

    // Puts the core back after one event: into the lease, or else into the place.
    pub(crate) fn give(&mut self, holding: Holding<A>)
        requires fits { IsHeldOf self.old.settings holding.held.value.core.world holding.held.value.idle.items }
        ensures client { self.new ≡ record self.old { lease = self.new.lease } }
        ensures leaves { MatchOption self.new.lease ⊤ (λ world. world ≡ holding.held.value.core.world) }
        ensures keeps { holding.leased ≡ true → is_some self.new.lease ≡ true }
    {
        let Holding { held, leased } = holding;
        if leased {
            self.lease = Some(held);
            return;
        }
        let place: &Place<A> = &self.place;
        self.lease = place.give(held);
    }
}

impl<A: Allocator + Copy> Worker<A> {
    /// Takes a session that no worker has, where it has none yet. Refused with `NoSession` where none is left.
    pub fn join(&mut self) -> Result<Result<(), Fault>, Missed>
        ensures had { 0 < self.old.client.session → (result ≡ Ok (Ok tt)) × (self.new ≡ self.old) }
        ensures joins { self.old.client.session ≡ 0 → MatchResult result
            (λ done. InOneHolding self.old self.new (Joins self.old.settings.sessions self.old.client self.new.client done))
            (λ _. DidNothing self.old self.new) }
    {
        if self.client.session() > 0 {
            return Ok(Ok(()));
        }
        let mut holding = self.take()?;
        match holding.held.idle.pop() {
            Some(client) => {
                self.client = client;
                self.give(holding);
                Ok(Ok(()))
            }
            None => {
                self.give(holding);
                Ok(Err(Fault::NoSession))
            }
        }
    }

    /// Gives its session back, for another worker to take. Refused with `ReadOpen` where a transaction is open.
    pub fn leave(&mut self) -> Result<Result<(), Fault>, Missed>
        ensures open { is_some self.old.client.current ≡ true → (result ≡ Ok (Err faults.ReadOpen)) × (self.new ≡ self.old) }
        ensures leaves { self.old.client.current ≡ None → MatchResult result
            (λ done. InOneHolding self.old self.new (Leaves self.old.client self.new.client done))
            (λ _. DidNothing self.old self.new) }
    {
        if self.client.is_open() {
            return Ok(Err(Fault::ReadOpen));
        }
        let mut holding = self.take()?;
        let left = self.put_back(&mut holding.held.idle);
        self.give(holding);
        Ok(left)
    }

    // Puts its client, which has nothing open, among those that no worker has, where it has a session. Refused with `Memory` alone: all
    // is then as it was.
    fn put_back(&mut self, idle: &mut Vec<Client<A>, A>) -> Result<(), Fault>
        requires none { self.old.client.current ≡ None }
        requires idle { All (IsIdle self.old.settings.sessions) idle.old.items }
        ensures kept { self.new ≡ record self.old { client = self.new.client } }
        ensures ok { OnOk result (self.new.client.session ≡ 0) }
        ensures err { OnErr result ((self.new.client ≡ self.old.client) × (idle.new.items ≡ idle.old.items)) }
        ensures memory { IsOkUnless result faults.Memory }
        ensures idle { All (IsIdle self.old.settings.sessions) idle.new.items }
    {
        if self.client.session() == 0 {
            return Ok(());
        }
        let client = mem::replace(&mut self.client, Client::new(self.alloc, 0));
        match idle.push(client) {
            Ok(()) => Ok(()),
            Err(failed) => {
                self.client = failed.value;
                Err(Fault::Memory)
            }
        }
    }
}
