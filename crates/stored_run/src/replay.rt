//! What areplay puts of a stored run.

use areplay_tool::run;
use item_list::{Bytes, NoMemory};
use net_world::{MemFiles, MemSink};
use std::alloc::Global;
use std::collections::BTreeMap;

/// The path of the file that has the text.
const PATH: &str = "run.txt";

/// What areplay puts of a file with this text where it ends with exit status 0, which says that the run is lawful; else
/// nothing.
pub fn replayed(alloc: Global, text: &[u8]) -> Result<Vec<u8>, NoMemory> {
    let mut files = file_of(alloc, text)?;
    let mut sink = MemSink::make(Vec::new(alloc));
    match run(alloc, &[PATH], &mut files, &mut sink) {
        0 => Ok(sink.bytes().to_vec(alloc)?),
        _ => Ok(Vec::new(alloc)),
    }
}

/// Files of which one has this text.
fn file_of(alloc: Global, text: &[u8]) -> Result<MemFiles, NoMemory> {
    let mut files = BTreeMap::new(alloc);
    let path = String::from_str(alloc, PATH)?;
    let bytes = Bytes::of(alloc, text)?;
    if files.insert(path, bytes).is_err() {
        return Err(NoMemory);
    }
    Ok(MemFiles::make(files, Vec::new(alloc)))
}

/// What areplay puts of a lawful run of so many entries that accepts so many requests, which end as these lines have it: the
/// number of each, and its status by code and by name.
pub fn lawful_page(
    alloc: Global,
    entries: usize,
    accepted: usize,
    fates: &str,
) -> Result<String, NoMemory> {
    Ok(format!(in alloc; "lawful {entries} entries {accepted} accepted\n{fates}")?)
}

/// The status that a page of adig has, by code and by name; nothing where it has none.
pub fn page_status(page: &str) -> &str {
    for line in page.split('\n') {
        if let Some(status) = line.strip_prefix(";; status ") {
            return status;
        }
    }
    ""
}
