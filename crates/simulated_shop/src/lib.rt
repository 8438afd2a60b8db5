//! A shop as a plain table, by which a simulation judges what the program answers: the quantity of each card, and the last two requests
//! of each till with their answers. It is written from the pages on messages and cards, and uses no crate of the product.
#![tactic(auto)]

mod answers;
mod lines;
mod shops;
mod texts;

pub use answers::{Answer, Reply, Request};
pub use lines::{Line, draw_line};
pub use shops::Shop;
pub use texts::{write_line, write_reply, write_shop};
