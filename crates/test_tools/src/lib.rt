//! Tools of tests: an allocator that counts what it is asked for and refuses what it is told to refuse, and a device that fails where it
//! is told to.
#![tactic(auto)]

mod devices;
mod plan;

pub use devices::Device;
pub use plan::Plan;
use std::alloc::{AllocError, Allocator};
use std::sync::atomic::{AtomicU64, Ordering};

/// An allocator that hands on to another one what it doesn't refuse.
///
/// Lend it to what is tested: `&Refusing<A>` is an allocator that can be copied, and that threads may share. Where a block grows or
/// shrinks, the new block is one request, and the old one is given back after it. No clause tells the counts, since they stand in
/// atomic words.
#[derive(Drop)]
pub struct Refusing<A: Allocator> {
    inner: A,
    counts: Counts,
}

// What was asked for and let through, and the places of what is refused.
#[derive(Drop)]
struct Counts {
    requests: AtomicU64,
    refused: AtomicU64,
    bytes_out: AtomicU64,
    first: AtomicU64,
    last: AtomicU64,
}

impl<A: Allocator> Refusing<A> {
    /// An allocator that was asked for nothing yet, and refuses what the plan says.
    pub fn new(inner: A, plan: Plan) -> Refusing<A> {
        let (first, last) = plan.bounds();
        Refusing {
            inner,
            counts: Counts {
                requests: AtomicU64::new(0),
                refused: AtomicU64::new(0),
                bytes_out: AtomicU64::new(0),
                first: AtomicU64::new(first),
                last: AtomicU64::new(last),
            },
        }
    }

    /// From now on it refuses what this plan says. The count of the requests goes on.
    pub fn follow(&self, plan: Plan) {
        let (first, last) = plan.bounds();
        self.counts.first.store(first, Ordering::SeqCst);
        self.counts.last.store(last, Ordering::SeqCst);
    }

    /// How many requests there were, with those that were refused. The next one stands at this place.
    pub fn requests(&self) -> u64 {
        self.counts.requests.load(Ordering::SeqCst)
    }

    /// How many requests were refused.
    pub fn refused(&self) -> u64 {
        self.counts.refused.load(Ordering::SeqCst)
    }

    /// How many bytes were let through and not given back. What the inner allocator itself refused counts among them.
    pub fn bytes_out(&self) -> u64 {
        self.counts.bytes_out.load(Ordering::SeqCst)
    }
}

// Counts a request for so many bytes, and answers whether it is refused.
fn refuses(counts: &Counts, size: usize) -> bool {
    let place = counts.requests.fetch_add(1, Ordering::SeqCst);
    let first = counts.first.load(Ordering::SeqCst);
    let last = counts.last.load(Ordering::SeqCst);
    if first <= place && place <= last {
        let _refused_before = counts.refused.fetch_add(1, Ordering::SeqCst);
        return true;
    }
    let _out_before = counts.bytes_out.fetch_add(size as u64, Ordering::SeqCst);
    false
}

// Counts so many bytes as given back.
fn take_back(counts: &Counts, size: usize) {
    let _out_before = counts.bytes_out.fetch_sub(size as u64, Ordering::SeqCst);
}

unsafe impl<A: Allocator> Allocator for Refusing<A> {
    ghost dealloc_token = { λ lent ty ptr. A.dealloc_token lent.inner ty ptr };

    fn allocate(&self, size: usize, align: usize) -> Result<*mut u8, AllocError> {
        if refuses(&self.counts, size) {
            return Err(AllocError);
        }
        self.inner.allocate(size, align)
    }

    unsafe fn deallocate(&self, ptr: *mut u8, size: usize, align: usize) {
        take_back(&self.counts, size);
        self.inner.deallocate(ptr, size, align);
    }
}
