//! Which of a machine's addresses are taken.

ghost use Rattle.std.specs.Prelude.{◌≡◌, ◌≤◌, length, IfOk, OnOk};
ghost use Rattle.std.specs.List.{fold, list_any};
ghost use Rattle.own_addresses.specs.Choice as meaning;

use item_list::NoMemory;
use net_addr::{Addr, scope};
use std::alloc::Global;

/// How many are taken at most (this project's profile).
const OWN_MOST: usize = 8;

/// The scope of an address that all may reach (RFC 4291, section 2.7).
const GLOBAL: u8 = 14;

/// The first of each family and scope, then the others, those of global scope first, until there are 8; each once, and none
/// of loopback.
pub fn chosen(alloc: Global, told: &[Addr]) -> Result<Vec<Addr>, NoMemory>
    ensures value { IfOk result (λ own. own.items ≡ meaning.chosen_of told.now) }
    ensures few { IfOk result (λ own. length own.items ≤ 8) }
{
    let mut own = Vec::new(alloc);
    add_firsts(&mut own, told)?;
    add_global(&mut own, told)?;
    add_all(&mut own, told)?;
    Ok(own)
}

/// Takes the first of each family and scope.
fn add_firsts(own: &mut Vec<Addr>, told: &[Addr]) -> Result<(), NoMemory>
    ensures value { OnOk result (own.new.items ≡ fold meaning.with_first own.old.items told.now) }
    ensures few { length own.old.items ≤ 8 → length own.new.items ≤ 8 }
{
    for address in told {
        add_first(own, *address)?;
    }
    Ok(())
}

/// Takes those of global scope.
fn add_global(own: &mut Vec<Addr>, told: &[Addr]) -> Result<(), NoMemory>
    ensures value { OnOk result (own.new.items ≡ fold meaning.with_global own.old.items told.now) }
    ensures few { length own.old.items ≤ 8 → length own.new.items ≤ 8 }
{
    for address in told {
        if scope(*address) == GLOBAL {
            add(own, *address)?;
        }
    }
    Ok(())
}

/// Takes each.
fn add_all(own: &mut Vec<Addr>, told: &[Addr]) -> Result<(), NoMemory>
    ensures value { OnOk result (own.new.items ≡ fold meaning.with_address own.old.items told.now) }
    ensures few { length own.old.items ≤ 8 → length own.new.items ≤ 8 }
{
    for address in told {
        add(own, *address)?;
    }
    Ok(())
}

/// Takes an address, if it is the first of its family and scope.
fn add_first(own: &mut Vec<Addr>, address: Addr) -> Result<(), NoMemory>
    ensures value { OnOk result (own.new.items ≡ meaning.with_first own.old.items address) }
    ensures few { length own.old.items ≤ 8 → length own.new.items ≤ 8 }
{
    if has_alike(own.as_slice(), address) {
        return Ok(());
    }
    add(own, address)
}

/// Whether one of these has the address's family and scope.
fn has_alike(own: &[Addr], address: Addr) -> bool
    ensures { result ≡ list_any (meaning.is_alike address) own.now }
{
    own.iter().any(|taken| is_alike(address, *taken))
}

/// Takes an address, if it is one more and there are fewer than 8.
fn add(own: &mut Vec<Addr>, address: Addr) -> Result<(), NoMemory>
    ensures value { OnOk result (own.new.items ≡ meaning.with_address own.old.items address) }
    ensures few { length own.old.items ≤ 8 → length own.new.items ≤ 8 }
{
    if own.len() < OWN_MOST && is_new(own.as_slice(), address) {
        own.push(address)?;
    }
    Ok(())
}

/// Whether it is one more: not of loopback, from which no other is reached, and not taken.
fn is_new(own: &[Addr], address: Addr) -> bool
    ensures { result ≡ meaning.is_new own.now address }
{
    !is_loopback(address) && !has_same(own, address)
}

/// Whether the address is one of these.
fn has_same(own: &[Addr], address: Addr) -> bool
    ensures { result ≡ list_any (meaning.is_same address) own.now }
{
    own.iter().any(|taken| is_same(address, *taken))
}

/// Whether both are the same.
fn is_same(left: Addr, right: Addr) -> bool
    ensures { result ≡ meaning.is_same left right }
{
    match (left, right) {
        (Addr::V4(left), Addr::V4(right)) => left == right,
        (Addr::V6(left), Addr::V6(right)) => left == right,
        (Addr::V4(_), Addr::V6(_)) | (Addr::V6(_), Addr::V4(_)) => false,
    }
}

/// Whether both have one family and scope.
fn is_alike(left: Addr, right: Addr) -> bool
    ensures { result ≡ meaning.is_alike left right }
{
    has_family_of(left, right) && scope(left) == scope(right)
}

/// Whether both have one family.
fn has_family_of(left: Addr, right: Addr) -> bool
    ensures { result ≡ meaning.has_family_of left right }
{
    match (left, right) {
        (Addr::V4(_), Addr::V4(_)) | (Addr::V6(_), Addr::V6(_)) => true,
        (Addr::V4(_), Addr::V6(_)) | (Addr::V6(_), Addr::V4(_)) => false,
    }
}

/// Whether it is an address of loopback.
fn is_loopback(address: Addr) -> bool
    ensures { result ≡ meaning.is_loopback address }
{
    match address {
        Addr::V4(bits) => bits >> 24 == 127,
        Addr::V6(bits) => bits == 1,
    }
}
