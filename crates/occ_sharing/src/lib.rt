//! A store that many threads share without a lock of its own. Its core lies in a place, from which a worker takes it for one event and puts
//! it back; who finds it away is told to try again, and changed nothing. Nothing here waits.
#![tactic(auto)]

mod events;
mod held;
mod places;
mod schema_copies;
mod settings;
mod stores;
mod whole;
mod workers;

pub use held::Held;
pub use places::Missed;
pub use settings::Settings;
pub use stores::SharedStore;
pub use whole::Counts;
pub use workers::Worker;
