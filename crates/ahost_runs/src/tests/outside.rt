//! The words, files, network and output of a run, in memory.

use super::Scenario;
use item_list::Bytes;
use net_world::{MemFiles, MemSink, ScriptWorld};
use scenario::{Coming, items_of};
use std::alloc::Global;
use std::collections::BTreeMap;
use std::test::Fail;

/// The random words that the network gives: the identifier of an attempt is this one, or the first behind it that is free.
const WORD: u16 = 0x1234;

/// What a run is lent.
#[derive(Drop)]
pub struct Outside {
    pub files: MemFiles,
    pub world: ScriptWorld,
    pub sink: MemSink,
}

/// What the run of a scenario is lent.
pub fn outside_of(alloc: Global, scenario: &Scenario<'_>) -> Result<Outside, Fail> {
    Ok(Outside {
        files: files_of(alloc, scenario)?,
        world: world_of(alloc, scenario)?,
        sink: MemSink::make(scenario.put_fails.to_vec(alloc)?),
    })
}

/// The files of a scenario.
fn files_of(alloc: Global, scenario: &Scenario<'_>) -> Result<MemFiles, Fail> {
    let fails = scenario.read_fails.to_vec(alloc)?;
    Ok(MemFiles::make(named(alloc, scenario)?, fails))
}

/// Those that there are, where they are.
fn named(alloc: Global, scenario: &Scenario<'_>) -> Result<BTreeMap<String, Bytes>, Fail> {
    let mut files = BTreeMap::new(alloc);
    if let Some(bytes) = scenario.resolv {
        add_file(alloc, &mut files, "/etc/resolv.conf", bytes)?;
    }
    if let Some(bytes) = scenario.hosts {
        add_file(alloc, &mut files, "/etc/hosts", bytes)?;
    }
    Ok(files)
}

/// Adds a file with these bytes.
fn add_file(
    alloc: Global,
    files: &mut BTreeMap<String, Bytes>,
    path: &str,
    bytes: &[u8],
) -> Result<(), Fail> {
    let path = String::from_str(alloc, path)?;
    files.insert(path, Bytes::of(alloc, bytes)?)?;
    Ok(())
}

/// The network of a scenario.
fn world_of(alloc: Global, scenario: &Scenario<'_>) -> Result<ScriptWorld, Fail> {
    let words = Vec::from_elem(alloc, WORD, 256)?;
    let fails = scenario.fails.to_vec(alloc)?;
    let comings = comings_of(alloc, scenario.replies)?;
    let items = items_of(alloc, comings.as_slice())?;
    Ok(ScriptWorld::make(words, items, fails))
}

/// The datagrams, as they come of the first server at moment 1.
fn comings_of<'a>(alloc: Global, replies: &[&'a [u8]]) -> Result<Vec<Coming<'a>>, Fail> {
    let mut comings = Vec::new(alloc);
    for bytes in replies {
        comings.push(Coming::datagram(1, 0, bytes))?;
    }
    Ok(comings)
}
