//! An ordered map from numbers, kept in pages: the keys of a page stand beside each other, and its rows in a list of their own.
#![tactic(auto)]

mod backward;
mod map;
mod page;
mod range;
mod search;
mod shelf;

pub use backward::Backward;
pub use map::PageMap;
pub use range::Range;
