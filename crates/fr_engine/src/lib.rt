//! An instant over a graph of signals: its nodes are taken from the agenda by least height, computed and written, and the era
//! of a switch is built anew where its test has another key, until nothing is queued; where an instant begins, and what its end
//! leaves; and all of it as one call, `first_instant` and `further_instant`. Nothing uses this yet.
#![tactic(auto)]

mod beginning;
mod choices;
mod computing;
mod ending;
mod instant;
mod keys;
mod latching;
mod running;
mod setting;
mod stops;
mod turning;
mod values;

pub use beginning::begin_instant;
pub use choices::Choices;
pub use computing::compute;
pub use ending::end_instant;
pub use instant::{first_instant, further_instant, what_is_told_is_built_up};
pub use keys::{keeps_key, key_of};
pub use latching::latch_all;
pub use running::run;
pub use setting::{Notes, settle};
pub use stops::RunStop;
pub use turning::turn;
