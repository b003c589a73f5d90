//! How a request is named on a page.

ghost use Rattle.std.specs.Prelude.{◌≡◌, IfOk};
ghost use Rattle.tool_line.specs.Heads as meaning;

use crate::page::adig_page;
use chan_types::{Answer, Spec};
use item_list::{Bytes, NoMemory};
use net_addr::print;
use std::alloc::Global;

/// The type of an IPv4 address record (RFC 1035, section 3.2.2).
pub(crate) const A: u16 = 1;

/// The type of a pointer record (RFC 1035, section 3.2.2).
const PTR: u16 = 12;

/// The Internet class (RFC 1035, section 3.2.4).
pub(crate) const IN: u16 = 1;

/// The label of a request: the name or the host as it was given, and of a reverse request the printed address.
pub fn label(alloc: Global, spec: &Spec) -> Result<Bytes, NoMemory>
    ensures { IfOk result (λ text. text ≡ meaning.label_of spec.now) }
{
    match spec {
        Spec::Query { name, .. } | Spec::Search { name, .. } => Bytes::of(alloc, name.as_slice()),
        Spec::Address { host, .. } => Bytes::of(alloc, host.as_slice()),
        Spec::Reverse { address } => print(alloc, *address),
    }
}

/// The type that a request is headed by.
fn kind_of(spec: &Spec) -> u16
    ensures { result ≡ meaning.kind_of spec.now }
{
    match spec {
        Spec::Query { kind, .. } | Spec::Search { kind, .. } => *kind,
        Spec::Address { .. } => A,
        Spec::Reverse { .. } => PTR,
    }
}

/// The class that a request is headed by.
fn class_of(spec: &Spec) -> u16
    ensures { result ≡ meaning.class_of spec.now }
{
    match spec {
        Spec::Query { class, .. } | Spec::Search { class, .. } => *class,
        Spec::Address { .. } | Spec::Reverse { .. } => IN,
    }
}

/// The page of adig for a request.
pub fn page_of(alloc: Global, spec: &Spec, answer: &Answer) -> Result<Bytes, NoMemory>
    ensures { IfOk result (λ text. text ≡ meaning.page_of spec.now answer.now) }
{
    let label = label(alloc, spec)?;
    adig_page(
        alloc,
        label.as_slice(),
        kind_of(spec),
        class_of(spec),
        answer,
    )
}
