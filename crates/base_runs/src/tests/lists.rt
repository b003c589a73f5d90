//! A list with ample memory.

use item_list::{Bytes, ItemList};
use std::test::Fail;

// With ample memory nothing is refused, and a list gives back what was put into it.
#[test]
fn a_list_is_made_and_given_back(rt: HostRuntime) -> Result<(), Fail> {
    let mut bytes = Bytes::of(rt.alloc(), b"ab")?;
    bytes.push(b'c')?;
    assert!(rt; bytes.as_slice() == b"abc".as_slice() && bytes.len() == 3);
    let back = ItemList::from_vec(bytes.into_vec());
    assert!(rt; back == Bytes::of(rt.alloc(), b"abc")?);
    assert!(rt; back != Bytes::of(rt.alloc(), b"abd")?);
    assert!(rt; !back.is_empty() && Bytes::new(rt.alloc()).is_empty());
    Ok(())
}
