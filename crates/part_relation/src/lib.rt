//! Relations told by parts that are conjoined: images under them with levels hidden as early as they can be, after Burch,
//! Clarke and Long (1991).
#![tactic(auto)]

mod images;
mod laws;
mod parts;
mod schedules;
mod scheduling;
mod seen;
mod supports;

pub use images::{hide, image, lift};
pub use laws::plans_fit_when_spaces_grow;
pub use parts::Parts;
pub use schedules::Schedule;
pub use scheduling::schedule;
