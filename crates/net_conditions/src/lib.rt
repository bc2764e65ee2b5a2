//! Whether the signals, latches and resets of a network are what `net_model` wants of them: no signal is driven twice,
//! each one that is used is driven, and so on. Each condition has a test of its own, so that a reader can say which fails.
#![tactic(auto)]

mod acceptance;
mod conditions;
mod known;
mod latches;
mod resets;
mod signal_lists;
mod signals;
mod spreading;
mod varying;

pub use acceptance::{accepting_signal, has_acceptance, is_acceptance_met};
pub use conditions::{are_uses_driven, is_driven_once, is_reset_once, meets_conditions};
pub use known::has_known_signals;
pub use latches::{has_equal_sizes, have_equal_sizes};
pub use resets::{are_resets, is_reset};
pub use signals::{Signals, are_distinct, driven_signals, latch_output_signals};
pub use varying::varying_signals;
