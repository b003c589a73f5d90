//! The index of a hosts file: its names by a hash of each, so that a name is found without a look at every line.

ghost use Rattle.std.specs.Prelude.{◌≡◌, ◌++◌, ◌∷◌, [], ◌≤◌, ◌^◌, length, map, filter, IfOk, OnOk};
ghost use Rattle.std.specs.List.Sorted.{IsSorted};
ghost use Rattle.hosts_file.specs.Hosts.{names_of};
ghost use Rattle.hosts_file.specs.Index as meaning;
ghost use Rattle.hosts_file.specs.Index.{hashed, hashed_cmp, has_hash, IsNameIndex};

use crate::hosts::HostLine;
use dns_message::Name;
use item_list::NoMemory;
use std::alloc::Global;
use std::hash::{FoldHasher, Hasher};

/// A name of a hosts file: its hash, and the number of its line. The order of the fields is that of the index.
#[derive(Clone, Copy, Debug, PartialEq, Eq, PartialOrd, Ord)]
pub(crate) struct HashedName {
    pub(crate) hash: u32,
    pub(crate) line: u32,
}

/// A number that is the same for names that are the same, ignoring ASCII case.
pub(crate) fn hash_of(name: &Name) -> u32
    ensures { result ≡ meaning.hash_of name.now }
{
    let mut hasher = FoldHasher::default();
    for byte in name.as_wire() {
        hasher.write_u8(byte.to_ascii_lowercase());
    }
    (hasher.finish() >> 32) as u32
}

/// How many names the lines have, as far as a number counts.
fn count_names(lines: &[HostLine]) -> usize {
    let mut count = lines.len();
    for line in lines {
        count = count.saturating_add(line.aliases.len());
    }
    count
}

/// Adds a name of a line.
fn add_name(names: &mut Vec<HashedName>, line: u32, name: &Name) -> Result<(), NoMemory>
    ensures { OnOk result (names.new.items ≡ names.old.items ++ hashed line name.now ∷ []) }
{
    let hash = hash_of(name);
    names.push(HashedName { hash, line })?;
    Ok(())
}

/// Adds the names of a line.
fn add_names(names: &mut Vec<HashedName>, number: u32, line: &HostLine) -> Result<(), NoMemory>
    ensures { OnOk result (names.new.items ≡ names.old.items ++ map (hashed number) (names_of line.now)) }
{
    add_name(names, number, &line.canonical)?;
    for alias in line.aliases.as_slice() {
        add_name(names, number, alias)?;
    }
    Ok(())
}

/// The names of some lines, in the order of their hashes.
pub(crate) fn index_of(alloc: Global, lines: &[HostLine]) -> Result<Vec<HashedName>, NoMemory>
    requires { length lines.now ≤ 2 ^ 32 }
    ensures { IfOk result (λ names. IsNameIndex lines.now names.items) }
{
    let mut names = Vec::with_capacity(alloc, count_names(lines))?;
    for (number, line) in lines.iter().enumerate() {
        add_names(&mut names, number as u32, line)?;
    }
    names.as_mut_slice().sort_unstable();
    Ok(names)
}

/// The names of an index that have the hash. They stand side by side.
pub(crate) fn names_at(names: &[HashedName], hash: u32) -> &[HashedName]
    requires { IsSorted hashed_cmp names.now }
    ensures { result.now ≡ filter (has_hash hash) names.now }
{
    let start = names.partition_point(|name| name.hash < hash);
    let rest = &names[start..];
    &rest[..rest.partition_point(|name| name.hash <= hash)]
}
