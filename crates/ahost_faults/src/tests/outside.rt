//! The files, network and output of a run, in memory.

use super::Scenario;
use net_world::{MemFiles, MemSink, ScriptWorld};
use scenario::{Coming, items_of};
use std::alloc::Global;
use std::collections::BTreeMap;
use std::test::Fail;

/// The random word that the network gives each time: an identifier is this one, or the first behind it that is free.
const WORD: u16 = 0x1234;

/// What a run is lent.
#[derive(Drop)]
pub struct Outside {
    pub files: MemFiles,
    pub world: ScriptWorld,
    pub sink: MemSink,
}

/// What the run of a scenario is lent.
pub fn outside_of(alloc: Global, scenario: &Scenario) -> Result<Outside, Fail> {
    Ok(Outside {
        files: files_of(alloc, scenario)?,
        world: world_of(alloc, scenario)?,
        sink: MemSink::make(scenario.put_fails.to_vec(alloc)?),
    })
}

/// Its files, of which there are none.
fn files_of(alloc: Global, scenario: &Scenario) -> Result<MemFiles, Fail> {
    let fails = scenario.read_fails.to_vec(alloc)?;
    Ok(MemFiles::make(BTreeMap::new(alloc), fails))
}

/// Its network.
fn world_of(alloc: Global, scenario: &Scenario) -> Result<ScriptWorld, Fail> {
    let words = Vec::from_elem(alloc, WORD, 32)?;
    let comings = comings_of(alloc, scenario.replies)?;
    let items = items_of(alloc, comings.as_slice())?;
    Ok(ScriptWorld::make(words, items, Vec::new(alloc)))
}

/// The datagrams, as they come of the first server at moment 1.
fn comings_of<'a>(alloc: Global, replies: &[&'a [u8]]) -> Result<Vec<Coming<'a>>, Fail> {
    let mut comings = Vec::new(alloc);
    for bytes in replies {
        comings.push(Coming::datagram(1, 0, bytes))?;
    }
    Ok(comings)
}
