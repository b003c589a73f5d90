//! The files, network and output of a run, in memory.

use super::COMINGS;
use net_world::{MemFiles, MemSink, ScriptWorld};
use scenario::items_of;
use std::alloc::Global;
use std::collections::BTreeMap;
use std::test::Fail;

/// The random word that the network gives each time.
const WORD: u16 = 0x1234;

/// What a run is lent.
#[derive(Drop)]
pub struct Outside {
    pub files: MemFiles,
    pub world: ScriptWorld,
    pub sink: MemSink,
}

/// What a run is lent whose network's calls with these numbers fail, from 0. There is no file.
pub fn outside_of(alloc: Global, fails: &[u64]) -> Result<Outside, Fail> {
    Ok(Outside {
        files: MemFiles::make(BTreeMap::new(alloc), Vec::new(alloc)),
        world: world_of(alloc, fails)?,
        sink: MemSink::make(Vec::new(alloc)),
    })
}

/// Its network.
fn world_of(alloc: Global, fails: &[u64]) -> Result<ScriptWorld, Fail> {
    let words = Vec::from_elem(alloc, WORD, 32)?;
    let fails = fails.to_vec(alloc)?;
    let items = items_of(alloc, COMINGS)?;
    Ok(ScriptWorld::make(words, items, fails))
}
