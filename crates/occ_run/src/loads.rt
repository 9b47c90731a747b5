//! What the clients of a run have at hand.

ghost use Rattle.std.specs.Prelude.{◌≡◌, map};
ghost use Rattle.occ_run.specs.Plans.{plan_of};

use crate::rounds::Round;
use crate::workloads::Plan;
use occ_store::{Name, Store};
use std::alloc::Allocator;
use std::marker::{Brand, PhantomData};

/// Which workload is run, so that the type of a client says what its session is to do. A run picks it where it begins.
pub(crate) trait Load {
    ghost use Rattle.std.specs.Prelude.{ℕ, List};
    ghost use Rattle.occ_run.specs.Plans.{Planned};

    ghost retries: { ℕ };

    ghost plans: { List Planned };
}

impl Load for Brand {
    ghost use Rattle.std.specs.Prelude.{[]};

    ghost retries = { 0 };

    ghost plans = { [] };
}

/// What all clients of a run have at hand.
#[derive(Drop)]
pub(crate) struct Job<N: Name, L: Load, A: Allocator + Copy> {
    pub(crate) alloc: A,
    pub(crate) store: Store<N, A>,
    pub(crate) round: Round,
    /// What all sessions run, in the order of the lines.
    pub(crate) plans: Vec<Plan<A>, A>,
    /// How often a transaction that was backed up is tried again.
    pub(crate) retries: u64,
    load: PhantomData<L>,
    ghost own_plans: { map plan_of plans.items ≡ L.plans },
    ghost own_retries: { retries ≡ L.retries },
}

impl<N: Name, L: Load, A: Allocator + Copy> Job<N, L, A> {
    /// What the clients of a run of this workload have at hand.
    pub(crate) fn new(
        alloc: A,
        store: Store<N, A>,
        round: Round,
        plans: Vec<Plan<A>, A>,
        retries: u64,
    ) -> Job<N, L, A>
        requires plans { map plan_of plans.items ≡ L.plans }
        requires retries { retries ≡ L.retries }
    {
        Job {
            alloc,
            store,
            round,
            plans,
            retries,
            load: PhantomData,
        }
    }
}
