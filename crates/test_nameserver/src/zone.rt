//! A zone: its records in order, and where those of a name stand among them.

ghost use Rattle.std.specs.Prelude.{◌≡◌, [], ◌∷◌, ◌++◌, length, map, filter, IfOk, OnOk};
ghost use Rattle.test_nameserver.specs.Zone.{records_of};
ghost use Rattle.test_nameserver.specs.Index.{key_of, has_key, with_index, places_at, places_from};
ghost use Rattle.dns_message.specs.Name.{IsName};

use dns_message::{Name, Record};
use item_list::NoMemory;
use std::alloc::Global;
use std::collections::BTreeMap;
use std::marker::Model;

/// A zone. Contracts see the list of its records, in order.
#[derive(Drop)]
pub struct Zone {
    records: Vec<Record>,
    /// For each name in lower case, the indexes of its records, in order.
    by_name: BTreeMap<Vec<u8>, Vec<usize>>,
}

impl Model for Zone {
    ghost use Rattle.std.specs.Prelude.{List};
    ghost use Rattle.dns_message.specs.declared.message.Record.{Record};
    ghost use Rattle.test_nameserver.specs.Index.{IsIndexed};

    ghost Value = { List Record };

    ghost view = { λ zone. zone.records.items };

    ghost invariant = { λ zone. IsIndexed zone.by_name zone.records.items };
}

/// A name's labels in lower case, each behind its length, by which it is found.
pub(crate) fn key_of(alloc: Global, name: &Name) -> Result<Vec<u8>, NoMemory>
    ensures key { IfOk result (λ key. key.items ≡ key_of name.now) }
    ensures name { IsName name.now }
{
    let mut key = Vec::from_slice(alloc, name.as_wire())?;
    key.as_mut_slice().make_ascii_lowercase();
    Ok(key)
}

/// Adds an index to those of a key.
fn add_index(
    alloc: Global,
    by_name: &mut BTreeMap<Vec<u8>, Vec<usize>>,
    key: Vec<u8>,
    index: usize,
) -> Result<(), NoMemory>
    ensures { OnOk result (with_index by_name.old key.items index by_name.new) }
{
    let mut indexes = by_name.remove(key.as_slice()).unwrap_or(Vec::new(alloc));
    indexes.push(index)?;
    by_name.insert(key, indexes)?;
    Ok(())
}

/// The indexes of a key.
fn indexes_at<'a>(by_name: &'a BTreeMap<Vec<u8>, Vec<usize>>, key: &[u8]) -> &'a [usize]
    ensures { result.now ≡ places_at by_name.now key.now }
{
    match by_name.get(key) {
        Some(indexes) => indexes.as_slice(),
        None => &[],
    }
}

/// The records at the indexes that a key has.
fn records_at<'a>(
    alloc: Global,
    records: &'a [Record],
    key: &[u8],
    indexes: &[usize],
) -> Result<Vec<&'a Record>, NoMemory>
    requires { indexes.now ≡ places_from 0 (has_key key.now) records.now }
    ensures { IfOk result (λ found. map (λ item. item.now) found.items
        ≡ filter (has_key key.now) records.now) }
{
    let _ = key;
    let mut found = Vec::with_capacity(alloc, indexes.len())?;
    for index in indexes {
        found.push(&records[*index])?;
    }
    Ok(found)
}

impl Zone {
    /// A zone without records. It takes no memory.
    pub(crate) fn empty(alloc: Global) -> Zone
        ensures { result ≡ [] }
    {
        Zone {
            records: Vec::new(alloc),
            by_name: BTreeMap::new(alloc),
        }
    }

    /// The records, in order.
    pub fn records(&self) -> &[Record]
        ensures { result.now ≡ self.now }
    {
        self.records.as_slice()
    }

    /// The records of a name, in order.
    pub(crate) fn records_of<'a>(
        &'a self,
        alloc: Global,
        name: &Name,
    ) -> Result<Vec<&'a Record>, NoMemory>
        ensures { IfOk result (λ found. map (λ item. item.now) found.items ≡ records_of name.now self.now) }
    {
        let key = key_of(alloc, name)?;
        let indexes = indexes_at(&self.by_name, key.as_slice());
        records_at(alloc, self.records.as_slice(), key.as_slice(), indexes)
    }

    /// The zone with a record behind its others.
    pub(crate) fn with(self, alloc: Global, item: Record) -> Result<Zone, NoMemory>
        ensures { IfOk result (λ zone. zone ≡ self ++ item ∷ []) }
    {
        let Zone {
            mut records,
            mut by_name,
        } = self;
        let key = key_of(alloc, &item.name)?;
        add_index(alloc, &mut by_name, key, records.as_slice().len())?;
        records.push(item)?;
        Ok(Zone { records, by_name })
    }
}
