//! What a request is accepted with once more.

use chan_types::{Script, Token};

/// A token of the script that the journal has. Nobody follows it.
#[derive(Drop)]
pub(crate) struct Recorded {
    pub(crate) script: Script,
}

impl Token for Recorded {
    ghost plan = { λ recorded. recorded.script };

    ghost name = { λ recorded. recorded.script.tag };

    fn script(&self) -> &Script {
        &self.script
    }
}
