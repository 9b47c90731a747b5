//! How many transactions the threads of a load make together, or for how long.
use std::sync::atomic::{AtomicU64, Ordering};
use std::time::{Clock, Instant};

/// When a load is over.
#[derive(Clone, Copy)]
pub(crate) enum Until {
    /// After so many transactions.
    Count(u64),
    /// After so many seconds.
    Seconds(u64),
}

impl Until {
    /// The end that a word tells: `20000`, or `60s`.
    pub(crate) fn told(word: &str) -> Option<Until> {
        match word.strip_suffix('s') {
            Some(seconds) => {
                let seconds = seconds.parse::<u64>().ok()?;
                Some(Until::Seconds(seconds))
            }
            None => {
                let count = word.parse::<u64>().ok()?;
                Some(Until::Count(count))
            }
        }
    }
}

/// What the threads of a load have left to do.
#[derive(Drop)]
pub(crate) struct Budget {
    until: Until,
    begun: Option<Instant>,
    taken: AtomicU64,
}

impl Budget {
    /// A budget out of which nothing was taken. Its time begins now.
    pub(crate) fn begin<R: Clock>(rt: &R, until: Until) -> Budget {
        Budget {
            until,
            begun: Instant::now(rt).ok(),
            taken: AtomicU64::new(0),
        }
    }

    /// The microseconds since it began; 0 where there is no clock.
    pub(crate) fn micros<R: Clock>(&self, rt: &R) -> u64 {
        let Some(begun) = self.begun else {
            return 0;
        };
        match begun.elapsed(rt) {
            Ok(since) => u64::try_from(since.as_micros()).unwrap_or(u64::MAX),
            Err(_) => 0,
        }
    }

    /// Whether its time is over.
    pub(crate) fn is_late<R: Clock>(&self, rt: &R) -> bool {
        match self.until {
            Until::Count(_) => false,
            Until::Seconds(seconds) => self.micros(rt) / 1_000_000 >= seconds,
        }
    }

    /// Takes the next transactions, at most so many, and tells how many; none where nothing is left.
    pub(crate) fn take<R: Clock>(&self, rt: &R, most: u64) -> Option<u64> {
        if self.is_late(rt) {
            return None;
        }
        let before = self.taken.fetch_add(most, Ordering::SeqCst);
        let many = match self.until {
            Until::Count(count) => count.saturating_sub(before).min(most),
            Until::Seconds(_) => most,
        };
        if many == 0 { None } else { Some(many) }
    }
}
