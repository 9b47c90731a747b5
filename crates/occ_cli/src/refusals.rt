//! What a step is refused for.

ghost use Rattle.std.specs.Prelude.{◌≢◌};
ghost use Rattle.occ_types.specs.declared.fault.Fault.TheVariants.{Memory};

use occ_types::Fault;

/// Why a step is refused. A want of memory is no refusal of a step: it ends the replay.
#[derive(Clone, Copy, Debug, PartialEq, Eq)]
pub struct Refusal {
    /// The fault, which is any but `Memory`.
    pub fault: Fault,
    pub ghost fed: { fault ≢ Memory },
}
