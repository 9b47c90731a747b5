//! What no clause, no schedule and no other test says of the libraries up to the client: that random transactions with pages are answered
//! and judged as a plain list of rows tells, and how many rows a page has at most; that rows come into a base and a store goes on from it
//! where each request for memory is refused in turn; that a core is driven by steps; the counts of the allocator that refuses; and how
//! faults are told. They are apart from what they test, since a crate with tests is proved twice.
#![tactic(auto)]

#[cfg(test)]
mod calls;
#[cfg(test)]
mod dice;
#[cfg(test)]
mod driving;
#[cfg(test)]
mod going_on;
#[cfg(test)]
mod keys;
#[cfg(test)]
mod pages;
#[cfg(test)]
mod parties;
#[cfg(test)]
mod places;
#[cfg(test)]
mod refusing;
#[cfg(test)]
mod sizes;
#[cfg(test)]
mod words;
