//! What the layers of texts cost: each function makes a text or a table of names, reads it, checks what it counted, and
//! answers the counts.
#![tactic(auto)]

mod collisions;
mod domains;
mod fault;
mod lines;
mod names;
mod table_rows;
mod texts;
mod value_counts;
mod valued;

pub use collisions::{CollisionCounts, count_collisions};
pub use domains::{DomainCounts, count_domains};
pub use fault::Fault;
pub use lines::{LineCounts, count_lines};
pub use names::{NameCounts, count_names};
pub use table_rows::{RowCounts, count_rows};
pub use texts::push_number;
pub use value_counts::count_counts;
pub use valued::{ValuedCounts, count_valued};
