//! A shop served over one host: the lines at hand are handled in memory, made durable by one sync, and then answered.
#![tactic(auto)]

mod faults;
mod printing;
mod reading;
mod room;
mod serving;

pub use faults::ServiceFault;
pub use room::ServiceRoom;
pub use serving::serve;
