//! What is added to a story.

use std::marker::Brand;

/// An event with what it replied. Who adds one passes `Brand`, and picks it there.
pub trait Entry {
    ghost use Rattle.occ_history.specs.History.{Happened};

    ghost entry: { Happened };
}

impl Entry for Brand {
    ghost use Rattle.occ_model.specs.Event.{Checkpoint, Closed};

    ghost entry = { (Checkpoint, Closed) };
}
