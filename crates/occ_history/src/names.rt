//! The name of a story, by which it and its fronts know one another.

use std::marker::Brand;

/// Which story it is.
pub trait StoryName {
    ghost use Rattle.atomic_table.specs.Seated.{TableId};

    ghost story: { TableId };
}

impl StoryName for Brand {
    ghost use Rattle.occ_history.specs.History.{nowhere};

    ghost story = { nowhere };
}
