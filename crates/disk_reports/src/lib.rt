//! What `list` and `check` print of an image: its directory, that it is clean, or its faults and the files that they
//! concern, as lines, as objects of JSON or as rows of a table.
#![tactic(auto)]

mod concerned;
mod counting;
mod describing;
mod directory_listing;
mod following;
mod gathering;
mod holding;
mod json;
mod judging;
mod laws;
mod lines;
mod links;
mod listing;
mod map_bits;
mod near_names;
mod objects;
mod plans;
mod rows;
mod showing;
mod sides;
mod slots;
mod texts;
mod trail;

pub use concerned::list_files;
pub use describing::{
    describe_as_is, describe_image, describe_refusal, heading, heading_as_is, refusal_as_is,
};
pub use directory_listing::list_image;
pub use judging::{check_among, check_image};
pub use laws::{named_sides_hold, strings_are_read_back};
pub use listing::list_faults;
pub use near_names::print_near_names;
pub use plans::{PlanForm, PlanVerdict, plan_heading, plan_image, plan_refusal};
pub use rows::Missing;
pub use texts::NameForm;
