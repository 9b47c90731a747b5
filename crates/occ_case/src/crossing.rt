//! What of cases may cross threads.
use crate::cases::{Case, OpenCase};
use crate::file::{CaseFile, CaseToken};
use crate::judged::Judged;
use std::alloc::Allocator;

/// A case, its handles, the file of cases, a token of it and a judged case may go to another thread and be lent to it, where their
/// allocator may. It computes nothing: the check proves it of each of them.
pub fn cases_cross_threads<A: Allocator + Send + Sync>() {
    crosses::<Case<A>>();
    crosses::<OpenCase<A>>();
    crosses::<CaseFile<A>>();
    crosses::<CaseToken<A>>();
    crosses::<Judged<A>>();
}

// A value of this type may go to another thread, and be lent to it.
fn crosses<T: Send + Sync>() {}
