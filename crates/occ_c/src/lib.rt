//! The store for C: exports over `occ_sharing`, which `c/occ.c` calls. Each takes a handle, or bytes, and answers a code.
#![tactic(auto)]

mod codes;
mod desks;
mod encoding;
mod exports;
mod handles;
mod operations;
mod texts;
