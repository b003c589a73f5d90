//! Which lines of a hosts file have a name.

ghost use Rattle.std.specs.Prelude.{◌≡◌, ◌↔◌, ◌<◌, ◌++◌, [], ◌∷◌, length, slice_index_or, None, IfOk, OnOk};
ghost use Rattle.std.specs.List.{list_any};
ghost use Rattle.dns_message.specs.Name.{same_name};
ghost use Rattle.hosts_file.specs.Hosts.{serves, addresses_of, canonical_of};
ghost use Rattle.hosts_file.specs.Index.{LeadToLines};

use crate::hosts::{HostLine, Hosts};
use crate::index::{HashedName, hash_of, names_at};
use dns_message::Name;
use item_list::NoMemory;
use net_addr::{AddrList, Family, allows};
use std::alloc::Global;

/// Whether the names are the same, ignoring ASCII case.
fn is_same(name: &Name, other: &Name) -> bool
    ensures { result ≡ same_name name.now other.now }
{
    name.same(other)
}

/// Whether the name is the same as one of these.
fn is_one_of(name: &Name, names: &[Name]) -> bool
    ensures { result ≡ list_any (same_name name.now) names.now }
{
    names.iter().any(|other| is_same(name, other))
}

/// Whether the line gives the name an address of the family.
fn line_serves(line: &HostLine, name: &Name, family: Family) -> bool
    ensures { result ≡ serves name.now family line.now }
{
    allows(family, line.address)
        && (is_same(name, &line.canonical) || is_one_of(name, line.aliases.as_slice()))
}

/// Adds the line's address, if it gives the name one of the family.
fn add_address(
    addresses: &mut AddrList,
    line: &HostLine,
    name: &Name,
    family: Family,
) -> Result<(), NoMemory>
    ensures { OnOk result (addresses.new ≡ addresses.old ++ addresses_of name.now family (line.now ∷ [])) }
{
    if line_serves(line, name, family) {
        addresses.push(line.address)?;
    }
    Ok(())
}

impl Hosts {
    /// The line of a number.
    fn line(&self, number: usize) -> &HostLine
        requires { number < length self.now }
        ensures { result.now ≡ slice_index_or self.now number result.now }
    {
        &self.lines[number]
    }

    /// The names with this name's hash, which lead to all lines that have the name.
    fn names_like(&self, name: &Name) -> &[HashedName]
        ensures { LeadToLines name.now self.now result.now }
    {
        names_at(self.names.as_slice(), hash_of(name))
    }

    /// The addresses of all lines that have the name, in file order, as the family allows.
    pub fn addresses(
        &self,
        alloc: Global,
        name: &Name,
        family: Family,
    ) -> Result<AddrList, NoMemory>
        ensures { IfOk result (λ addresses. addresses ≡ addresses_of name.now family self.now) }
    {
        let mut addresses = AddrList::new(alloc);
        let mut next = 0;
        let found = self.names_like(name);
        for like in found {
            let number = like.line as usize;
            // Two names of a line may have one hash.
            if number >= next {
                add_address(&mut addresses, self.line(number), name, family)?;
                next = number + 1;
            }
        }
        Ok(addresses)
    }

    /// The first name of the first line that has the name and an address that the family allows.
    pub fn canonical(
        &self,
        alloc: Global,
        name: &Name,
        family: Family,
    ) -> Result<Option<Name>, NoMemory>
        ensures value { IfOk result (λ found. found ≡ canonical_of name.now family self.now) }
        // There is none exactly where the name has no address.
        ensures none { IfOk result (λ found. (found ≡ None) ↔ (addresses_of name.now family self.now ≡ [])) }
    {
        let found = self.names_like(name);
        for like in found {
            let line = self.line(like.line as usize);
            if line_serves(line, name, family) {
                return Ok(Some(line.canonical.copy(alloc)?));
            }
        }
        Ok(None)
    }
}
