//! A session of a channel that workers share: what makes its turns while they call its callbacks.
#![tactic(auto)]

mod coming;
mod looking;
mod turner;

pub use coming::Coming;
pub use turner::Turner;
