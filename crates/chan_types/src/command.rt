//! What a callback commands: plain data, which the one that called it performs.

use crate::script::Script;
use crate::spec::Spec;

/// A command that a callback gives.
#[derive(Drop)]
pub enum Command {
    /// Ask this, with a callback of this script.
    Ask(Spec, Script),
    /// Cancel every pending request.
    Cancel,
    /// Destroy the channel.
    Destroy,
}
