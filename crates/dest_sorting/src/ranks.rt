//! What destinations are sorted by (RFC 6724, section 6).
ghost use Rattle.std.specs.Prelude.{◌≡◌};
ghost use Rattle.dest_sorting.specs.Order.{source_of, has_scope as scope_test, has_label as label_test};
ghost use Rattle.dest_sorting.specs.Ranks.{rank_of as rank_with, counted};

use crate::policy::policy_of;
use crate::source::{is_native, shared, source_for};
use net_addr::{Addr, scope};
use std::cmp::Reverse;

/// A field for each rule that can decide, in their order. What is tried first has the lesser rank.
#[derive(Clone, Copy, PartialEq, Eq, PartialOrd, Ord)]
pub struct Rank {
    /// Rule 1: there is no source.
    pub unusable: bool,
    /// Rule 2: the source has another scope, or there is none.
    pub other_scope: bool,
    /// Rule 5: the source has another label, or there is none.
    pub other_label: bool,
    /// Rule 6: the higher precedence first.
    pub precedence: Reverse<u8>,
    /// Rule 8: the smaller scope first.
    pub scope: u8,
    /// Rule 9: the longer prefix in common with the source first; 0 where the rule leaves the destination out.
    pub shared: Reverse<u32>,
}

/// The rank of a destination.
pub fn rank_of(dest: Addr, sources: &[Addr]) -> Rank
    ensures { result ≡ rank_with dest (source_of sources.now dest) }
{
    let source = source_for(dest, sources);
    Rank {
        unusable: source.is_none(),
        other_scope: !has_scope(dest, source),
        other_label: !has_label(dest, source),
        precedence: Reverse(policy_of(dest).precedence),
        scope: scope(dest),
        shared: Reverse(closeness(dest, source)),
    }
}

/// Whether the source has the destination's scope.
fn has_scope(dest: Addr, source: Option<Addr>) -> bool
    ensures { result ≡ scope_test dest source }
{
    match source {
        None => false,
        Some(source) => scope(dest) == scope(source),
    }
}

/// Whether the source has the destination's label.
fn has_label(dest: Addr, source: Option<Addr>) -> bool
    ensures { result ≡ label_test dest source }
{
    match source {
        None => false,
        Some(source) => policy_of(dest).label == policy_of(source).label,
    }
}

/// How many leading bits the destination shares with its source; 0 where it is not native or has no source.
fn closeness(dest: Addr, source: Option<Addr>) -> u32
    ensures { result ≡ counted dest source }
{
    match source {
        Some(source) if is_native(dest) => shared(dest, source),
        _ => 0,
    }
}
