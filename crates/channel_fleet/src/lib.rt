//! A fleet: several channels for many callers, each channel with a helm of its own, and counts that are read without waiting.
#![tactic(auto)]

mod asked;
mod berth;
mod beside;
mod calling;
mod finishing;
mod fleet;
mod front;
mod helm;
mod helm_end;
mod launching;
mod making;
mod pass;
mod progress;
mod routing;
mod serving;
mod settling;
mod setup;
mod shown;
mod stand;
mod standing;
mod steering;
mod steersman;
mod yard;

pub use asked::Asked;
pub use finishing::Roll;
pub use fleet::Fleet;
pub use front::Front;
pub use helm::Helm;
pub use helm_end::HelmEnd;
pub use pass::FleetPass;
pub use routing::route;
pub use setup::Setup;
pub use shown::Shown;
pub use stand::Stand;
pub use standing::{leave_stands, take_stands};
