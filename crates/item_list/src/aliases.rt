//! The lists that every crate uses, by name.

use crate::list::ItemList;

/// Bytes: a message, a text, a label or rdata.
pub type Bytes = ItemList<u8>;

/// A list of byte strings.
pub type BytesList = ItemList<Bytes>;
