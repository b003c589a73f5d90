//! The files, network and output of a run, in memory.

use super::Scenario;
use item_list::Bytes;
use net_world::{MemFiles, MemSink, ScriptWorld};
use scenario::items_of;
use std::alloc::Global;
use std::collections::BTreeMap;
use std::test::Fail;

/// What a run is lent.
#[derive(Drop)]
pub struct Outside {
    pub files: MemFiles,
    pub world: ScriptWorld,
    pub sink: MemSink,
}

/// What the run of a scenario is lent.
pub fn outside_of(alloc: Global, scenario: &Scenario<'_>) -> Result<Outside, Fail> {
    Ok(Outside {
        files: files_of(alloc, scenario)?,
        world: world_of(alloc, scenario)?,
        sink: MemSink::make(scenario.put_fails.to_vec(alloc)?),
    })
}

/// The files of a scenario.
fn files_of(alloc: Global, scenario: &Scenario<'_>) -> Result<MemFiles, Fail> {
    let fails = scenario.read_fails.to_vec(alloc)?;
    Ok(MemFiles::make(named(alloc, scenario.resolv)?, fails))
}

/// The resolv.conf, if there is one.
fn named(alloc: Global, resolv: Option<&[u8]>) -> Result<BTreeMap<String, Bytes>, Fail> {
    let mut files = BTreeMap::new(alloc);
    if let Some(bytes) = resolv {
        add_resolv(alloc, &mut files, bytes)?;
    }
    Ok(files)
}

/// Adds a resolv.conf with these bytes.
fn add_resolv(
    alloc: Global,
    files: &mut BTreeMap<String, Bytes>,
    bytes: &[u8],
) -> Result<(), Fail> {
    let bytes = Bytes::of(alloc, bytes)?;
    let path = String::from_str(alloc, "/etc/resolv.conf")?;
    add_file(files, path, bytes)
}

/// Adds a file.
fn add_file(files: &mut BTreeMap<String, Bytes>, path: String, bytes: Bytes) -> Result<(), Fail> {
    files.insert(path, bytes)?;
    Ok(())
}

/// The network of a scenario.
fn world_of(alloc: Global, scenario: &Scenario<'_>) -> Result<ScriptWorld, Fail> {
    let words = random_words(alloc, scenario.words)?;
    let fails = scenario.fails.to_vec(alloc)?;
    let items = items_of(alloc, scenario.comings)?;
    Ok(ScriptWorld::make(words, items, fails))
}

/// The random words: these, and behind them 64 times the plain one.
fn random_words(alloc: Global, first: &[u16]) -> Result<Vec<u16>, Fail> {
    let mut words = first.to_vec(alloc)?;
    words.resize(first.len().saturating_add(64), 0x1234)?;
    Ok(words)
}
