//! Which source address serves a destination (RFC 6724, section 5).
ghost use Rattle.std.specs.Prelude.{◌≡◌, ◌&&◌, is_some};
ghost use Rattle.std.specs.List.{list_any};
ghost use Rattle.dest_sorting.specs.Order.{is_native as native, same_family as family_test, source_before, is_chosen as chosen, source_of, shared as shared_of, is_destination as first_rule, has_better_scope as second_rule, has_its_label as sixth_rule, is_closer as eighth_rule};

use crate::policy::policy_of;
use net_addr::{Addr, common_prefix, is_mapped, mapped, scope};

/// The source address that serves a destination: the first of its family that no other source is before. None comes
/// where no source has the family.
pub fn source_for(dest: Addr, sources: &[Addr]) -> Option<Addr>
    ensures value { result ≡ source_of sources.now dest }
    ensures found { is_some result ≡ list_any (family_test dest) sources.now }
{
    sources
        .iter()
        .copied()
        .find(|source| is_chosen(dest, sources, *source))
}

/// Whether the source is of the destination's family, and no other source is before it.
fn is_chosen(dest: Addr, sources: &[Addr], source: Addr) -> bool
    ensures { result ≡ chosen dest sources.now source }
{
    same_family(dest, source) && !sources.iter().any(|other| is_behind(dest, source, *other))
}

/// Whether the source is behind another one of the destination's family. None is behind itself, so where the two are
/// the same the rules need not be asked.
fn is_behind(dest: Addr, source: Addr, other: Addr) -> bool
    ensures { result ≡ (family_test dest other && source_before dest other source) }
{
    other != source && same_family(dest, other) && is_before(dest, other, source)
}

/// Whether two addresses are of one family.
fn same_family(left: Addr, right: Addr) -> bool
    ensures { result ≡ family_test left right }
{
    match (left, right) {
        (Addr::V4(_), Addr::V4(_)) | (Addr::V6(_), Addr::V6(_)) => true,
        (Addr::V4(_), Addr::V6(_)) | (Addr::V6(_), Addr::V4(_)) => false,
    }
}

/// Whether one source is before another for this destination: by the first rule that decides.
fn is_before(dest: Addr, source: Addr, other: Addr) -> bool
    ensures { result ≡ source_before dest source other }
{
    if is_destination(dest, source, other) || is_destination(dest, other, source) {
        return is_destination(dest, source, other);
    }
    if has_better_scope(dest, source, other) || has_better_scope(dest, other, source) {
        return has_better_scope(dest, source, other);
    }
    if has_its_label(dest, source, other) || has_its_label(dest, other, source) {
        return has_its_label(dest, source, other);
    }
    is_closer(dest, source, other)
}

/// Rule 1: the destination itself before other sources.
fn is_destination(dest: Addr, source: Addr, other: Addr) -> bool
    ensures { result ≡ first_rule dest source other }
{
    source == dest && other != dest
}

/// Rule 2: of two scopes the smaller one, unless it is below the destination's; then the greater one.
fn has_better_scope(dest: Addr, source: Addr, other: Addr) -> bool
    ensures { result ≡ second_rule dest source other }
{
    let (near, far) = (scope(source), scope(other));
    near < far && scope(dest) <= near || far < near && far < scope(dest)
}

/// Rule 6: the destination's label before other labels.
fn has_its_label(dest: Addr, source: Addr, other: Addr) -> bool
    ensures { result ≡ sixth_rule dest source other }
{
    let label = policy_of(dest).label;
    policy_of(source).label == label && policy_of(other).label != label
}

/// Rule 8: the longer prefix in common with the destination. IPv4 and mapped addresses are left out, which is our
/// own rule.
fn is_closer(dest: Addr, source: Addr, other: Addr) -> bool
    ensures { result ≡ eighth_rule dest source other }
{
    is_native(dest)
        && is_native(source)
        && is_native(other)
        && shared(other, dest) < shared(source, dest)
}

/// Whether the address is neither an IPv4 nor a mapped address.
pub fn is_native(address: Addr) -> bool
    ensures { result ≡ native address }
{
    match address {
        Addr::V4(_) => false,
        Addr::V6(_) => !is_mapped(address),
    }
}

/// How many leading bits two addresses share.
pub fn shared(left: Addr, right: Addr) -> u32
    ensures { result ≡ shared_of left right }
{
    common_prefix(mapped(left), mapped(right))
}
