//! A test of the plain store.

use crate::made_once::is_made_once;
use dd_nodes::PlainNodes;
use std::test::Fail;

#[test]
fn makes_a_node_once_and_no_more_than_the_limit(rt: HostRuntime) -> Result<(), Fail> {
    let mut nodes = PlainNodes::new(rt.alloc(), 2, 1)?;
    assert!(rt; is_made_once(&mut nodes));
    Ok(())
}
