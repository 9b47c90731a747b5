//! What the threads of a run tell one another.

use crate::observers::{Observer, Progress};
use occ_store::Ended;
use std::sync::Wait;
use std::sync::atomic::{AtomicBool, AtomicU64, Ordering};
use std::thread;
use std::time::{Clock, Duration};

/// The longest pause between two looks of an observer, in microseconds.
const LONGEST_PAUSE: u64 = 1_000_000;

/// One run, as its threads share it: whether all are to give up, how many clients have not ended, and counts for whoever watches.
#[derive(Drop)]
pub(crate) struct Round {
    patience: u64,
    stopped: AtomicBool,
    running: AtomicU64,
    settled: AtomicU64,
    backed_up: AtomicU64,
    retried: AtomicU64,
    alone: AtomicU64,
}

impl Round {
    /// A run of so many clients, none of which has ended. Each polls a number, and tries to close its session, at most so often.
    pub(crate) fn new(clients: usize, patience: u64) -> Round {
        Round {
            patience,
            stopped: AtomicBool::new(false),
            running: AtomicU64::new(clients as u64),
            settled: AtomicU64::new(0),
            backed_up: AtomicU64::new(0),
            retried: AtomicU64::new(0),
            alone: AtomicU64::new(0),
        }
    }

    /// How often a number is polled, and a closing tried, before a client gives up.
    pub(crate) fn patience(&self) -> u64 {
        self.patience
    }

    /// Tells all threads to give up.
    pub(crate) fn stop(&self) {
        self.stopped.store(true, Ordering::SeqCst);
    }

    /// Whether all threads are to give up.
    pub(crate) fn is_stopped(&self) -> bool {
        self.stopped.load(Ordering::SeqCst)
    }

    /// One client has ended.
    pub(crate) fn client_ended(&self) {
        self.running.fetch_sub(1, Ordering::SeqCst);
    }

    /// Whether each client has ended, or all are to give up.
    pub(crate) fn is_over(&self) -> bool {
        self.is_stopped() || self.running.load(Ordering::SeqCst) == 0
    }

    /// One transaction more is over, and ended so.
    pub(crate) fn settled(&self, ended: &Ended<()>) {
        self.settled.fetch_add(1, Ordering::SeqCst);
        if let Ended::BackedUp(_) = ended {
            self.backed_up.fetch_add(1, Ordering::SeqCst);
        }
    }

    /// One transaction is tried again.
    pub(crate) fn retried(&self) {
        self.retried.fetch_add(1, Ordering::SeqCst);
    }

    /// One transaction was handed in to run alone.
    pub(crate) fn alone(&self) {
        self.alone.fetch_add(1, Ordering::SeqCst);
    }

    fn progress(&self) -> Progress {
        Progress {
            sessions: self.running.load(Ordering::SeqCst),
            settled: self.settled.load(Ordering::SeqCst),
            backed_up: self.backed_up.load(Ordering::SeqCst),
            retried: self.retried.load(Ordering::SeqCst),
            alone: self.alone.load(Ordering::SeqCst),
        }
    }

    /// Shows an observer how far the run has come, until it is over or the observer wants to see no more.
    pub(crate) fn watch<R: Wait + Clock, O: Observer>(&self, rt: &R, observer: &O) {
        for _ in rt.forever() {
            let over = self.is_over();
            match observer.see(self.progress()) {
                Some(pause) if !over => {
                    thread::sleep(rt, Duration::from_micros(pause.min(LONGEST_PAUSE)));
                }
                _ => return,
            }
        }
        unreachable!()
    }
}
