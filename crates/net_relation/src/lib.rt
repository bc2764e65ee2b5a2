//! Networks as relations: the steps, the initial and the accepting states of a file, as diagrams on the levels of a frame.
#![tactic(auto)]

mod accepting_states;
mod adding;
mod initial_states;
mod latches;
mod machines;
mod projecting;
mod relation;

pub use accepting_states::accepting;
pub use det_core::SolveFault;
pub use initial_states::initial;
pub use net_frame::Frame;
pub use relation::relation_of;
