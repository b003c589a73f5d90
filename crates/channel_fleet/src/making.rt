//! How a fleet is made.

ghost use Rattle.std.specs.Prelude.{◌<◌, ◌≤◌, IfOk, vec_len};
ghost use Rattle.channel_fleet.specs.Making.{IsNewFleet};

use crate::fleet::Fleet;
use crate::helm::Helm;
use crate::launching::launch;
use crate::pass::FleetPass;
use crate::setup::Setup;
use crate::yard::Yard;
use chan_types::NoMemory;
use channel_journal::ChannelJournal;
use completion_ticket::Done;
use std::alloc::Global;
use std::sync::Wait;

impl<B: Done + Drop, J: ChannelJournal> Fleet<B, J> {
    /// A fleet with a channel for each of these setups, of which there are 1 to 16; a pass for each of so many callers, 1 to 16;
    /// and a helm for each channel, in order. It takes the memory that `finish` needs. For want of memory it ends what was
    /// made, which is why it may wait, by its type.
    #[tactic(auto, using(crate::proofs::YardLemmas::room_at))]
    pub fn make<R: Wait>(
        rt: &R,
        alloc: Global,
        setups: Vec<Setup>,
        callers: u64,
    ) -> Result<(Fleet<B, J>, Vec<FleetPass<B, J>>, Vec<Helm<B, J>>), NoMemory>
        requires channels { (0 < vec_len setups) × (vec_len setups ≤ 16) }
        requires callers { (0 < callers) × (callers ≤ 16) }
        ensures { IfOk result (λ made. IsNewFleet setups.items callers made.0 made.1.items made.2.items) }
    {
        let mut yard = Yard::make(alloc, setups.len(), callers)?;
        for setup in setups {
            match launch(rt, alloc, setup, callers) {
                Ok(launched) => yard.add(launched),
                Err(NoMemory) => {
                    yard.end(rt);
                    return Err(NoMemory);
                }
            }
        }
        Ok(yard.into_fleet())
    }
}
