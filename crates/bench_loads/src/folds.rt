//! When the log of a store is folded.
use occ_store::{Name, Store};
use occ_types::Fault;
use std::alloc::Allocator;
use std::sync::Wait;

/// The checkpoints that one thread makes.
#[derive(Clone, Copy)]
pub(crate) struct Folds {
    after: Option<u64>,
    due: bool,
}

impl Folds {
    /// None yet, and none ever where it isn't told after how many transactions they are made.
    pub(crate) fn new(after: Option<u64>) -> Folds {
        Folds { after, due: false }
    }

    /// Makes a checkpoint after each so many transactions of all. Where a row is open then, it is made after one of the next ones.
    pub(crate) fn after<N: Name, A: Allocator + Copy, R: Wait>(
        &mut self,
        rt: &R,
        store: &Store<N, A>,
        tn: u64,
    ) -> Result<(), Fault> {
        let Some(after) = self.after else {
            return Ok(());
        };
        self.due = self.due || tn.checked_rem(after) == Some(0);
        if !self.due {
            return Ok(());
        }
        match fold(rt, store) {
            Err(Fault::StoreBusy) => Ok(()),
            folded => {
                self.due = false;
                folded
            }
        }
    }
}

/// Makes a checkpoint.
pub(crate) fn fold<N: Name, A: Allocator + Copy, R: Wait>(
    rt: &R,
    store: &Store<N, A>,
) -> Result<(), Fault> {
    let mut observer = store.observer(rt);
    let _folded = store.checkpoint(rt, &mut observer)?;
    Ok(())
}
