//! Which streams wait, and whose turn is next.
#![tactic(auto)]

mod ids;
mod marks;
mod ready;

pub use ids::Ids;
pub use marks::Marks;
pub use ready::{Place, Ready};
