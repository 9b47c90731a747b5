//! What a store leaves for one that goes on from it.
ghost use Rattle.std.specs.Prelude.{◌≡◌, IfOk, IfErr};
ghost use Rattle.occ_types.specs.declared.fault.Fault.TheVariants.{StoreBusy};
ghost use Rattle.occ_store.specs.Leaving.{IsLeft, WasActive};

use crate::names::Name;
use crate::shared::Shared;
use crate::stores::Store;
use occ_book::Base;
use occ_types::Refused;
use std::alloc::Allocator;
use std::sync::Mutex;

impl<N: Name, A: Allocator + Copy> Store<N, A> {
    /// What the store leaves for one that goes on from it: its base with all rows of the log folded into it, those within the window
    /// too, and so each row of the tables and the last number of each session. A closing mark isn't kept. No thread has the store any
    /// more, so it waits for none, and it takes no memory.
    ///
    /// Refused with `StoreBusy`, and the store handed back with all that it holds, while a transaction is active: a lane is stopped, or
    /// met a fault, between its entry and its end. So serve the lanes until each answers `Idle` or `LaneClosed`, and end them (`end`).
    pub fn into_base(self) -> Result<Base<A>, Refused<Store<N, A>>>
        ensures left { IfOk result (IsLeft N.named) }
        ensures busy { IfErr result (λ refused. (refused.fault ≡ StoreBusy) × WasActive N.named) }
    {
        let Store {
            shared,
            lease,
            file,
            cut,
            stop_word,
        } = self;
        match shared.into_inner().into_base() {
            Ok(base) => Ok(base),
            Err(Refused { value, fault }) => Err(Refused {
                value: Store {
                    shared: Mutex::new(value),
                    lease,
                    file,
                    cut,
                    stop_word,
                },
                fault,
            }),
        }
    }
}

impl<N: Name, A: Allocator + Copy> Shared<N, A> {
    // What it leaves, as `FiledCore::into_base` tells. Refused as that is, and handed back then.
    fn into_base(self) -> Result<Base<A>, Refused<Shared<N, A>>>
        ensures left { IfOk result (IsLeft N.named) }
        ensures busy { IfErr result (λ refused. (refused.fault ≡ StoreBusy) × WasActive N.named) }
        ensures handed_back { IfErr result (λ refused. refused.value ≡ self) }
    {
        self.law();
        let Shared {
            filed,
            publisher,
            rows,
            story,
            visitor,
            reading,
            origin,
        } = self;
        match filed.into_base() {
            Ok(base) => Ok(base),
            Err(Refused { value, fault }) => Err(Refused {
                value: Shared {
                    filed: value,
                    publisher,
                    rows,
                    story,
                    visitor,
                    reading,
                    origin,
                },
                fault,
            }),
        }
    }
}
