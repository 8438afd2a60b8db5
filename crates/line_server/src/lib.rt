//! A shop served line by line over a log: the lines at hand are handled in memory, made durable by one sync, and then
//! answered.
#![tactic(auto)]

mod batches;
mod logged;
mod reading;
mod scripts;

pub use batches::{BatchSource, MOST_LINES};
pub use logged::batching::serve_batches;
pub use logged::handling::handle_batch;
pub use logged::keeping::take_changes;
pub use logged::reporting::BatchReplies;
pub use logged::room::Room;
pub use scripts::ScriptBatches;
