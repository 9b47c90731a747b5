//! Watching a run: what it has come to, and a line that shows it on a terminal.

use occ_run::{Observer, Progress};
use std::io::IsTerminal;
use std::sync::atomic::{AtomicU64, Ordering};
use std::time::Instant;

/// How long a run takes before it is shown, in microseconds.
const QUIET: u64 = 1_000_000;

/// How long a line is shown at least, in microseconds.
const SHOWN: u64 = 200_000;

/// Sees how far a run has come.
#[derive(Drop)]
pub(crate) struct Watcher<'h> {
    rt: &'h HostRuntime,
    /// When it was made; none where there is no clock.
    made: Option<Instant>,
    /// When it was asked first, in microseconds since it was made; 0 where it was not.
    began: AtomicU64,
    /// The same of the last time.
    ended: AtomicU64,
    /// The same of the last time that a line was shown.
    shown: AtomicU64,
    retried: AtomicU64,
    alone: AtomicU64,
}

impl<'h> Watcher<'h> {
    /// Has seen nothing yet.
    pub(crate) fn new(rt: &'h HostRuntime) -> Watcher<'h> {
        Watcher {
            rt,
            made: Instant::now(rt).ok(),
            began: AtomicU64::new(0),
            ended: AtomicU64::new(0),
            shown: AtomicU64::new(0),
            retried: AtomicU64::new(0),
            alone: AtomicU64::new(0),
        }
    }

    /// How long the run took so far, in microseconds.
    pub(crate) fn took(&self) -> u64 {
        let ended = self.ended.load(Ordering::SeqCst);
        ended.saturating_sub(self.began.load(Ordering::SeqCst))
    }

    /// How many tries followed a back-up.
    pub(crate) fn retried(&self) -> u64 {
        self.retried.load(Ordering::SeqCst)
    }

    /// How many transactions were handed in to run alone.
    pub(crate) fn alone(&self) -> u64 {
        self.alone.load(Ordering::SeqCst)
    }

    /// Ends the line that is shown, where there is one.
    pub(crate) fn end_line(&self) {
        if self.shown.load(Ordering::SeqCst) > 0 {
            let _written = eprintln!(self.rt; "");
        }
    }

    // Microseconds since it was made.
    fn now(&self) -> u64 {
        let Some(made) = &self.made else {
            return 0;
        };
        match made.elapsed(self.rt) {
            Ok(time) => u64::try_from(time.as_micros()).unwrap_or(u64::MAX),
            Err(_) => 0,
        }
    }

    // Shows how far the run has come, where it is watched on a terminal and the last line stood long enough.
    fn show(&self, progress: Progress, now: u64) {
        let shown = self.shown.load(Ordering::SeqCst);
        if now.saturating_sub(shown) < SHOWN || !self.rt.stderr().is_terminal() {
            return;
        }
        self.shown.store(now, Ordering::SeqCst);
        let seconds = self.took() / 1_000_000;
        let settled = progress.settled;
        let backed_up = progress.backed_up;
        let _written = eprint!(self.rt;
            "\r{settled} settled, {backed_up} of them backed up, {seconds} s"
        );
    }
}

impl Observer for Watcher<'_> {
    fn see(&self, progress: Progress) -> Option<u64> {
        let now = self.now();
        if self.began.load(Ordering::SeqCst) == 0 {
            self.began.store(now, Ordering::SeqCst);
        }
        self.ended.store(now, Ordering::SeqCst);
        self.retried.store(progress.retried, Ordering::SeqCst);
        self.alone.store(progress.alone, Ordering::SeqCst);
        let took = self.took();
        if took >= QUIET {
            self.show(progress, now);
        }
        // the end is seen at most this much late
        Some((took / 64).max(50).min(20_000))
    }
}
