//! The texts of one and of two stages, whole, and the ends of the texts of a thousand; begin with
//! `one_stage`.

use crate::written::{
    NET_END_OF_THOUSAND, NET_OF_ONE, NET_OF_TWO, TASK_END_OF_THOUSAND, TASK_OF_ONE, TASK_OF_TWO,
};
use net_gen::pipeline;
use std::test::Fail;

#[test]
fn one_stage(rt: HostRuntime) -> Result<(), Fail> {
    let (net, tasks) = pipeline(rt.alloc(), 1)?;
    assert_eq!(rt; net.as_slice(), NET_OF_ONE);
    assert_eq!(rt; tasks.as_slice(), TASK_OF_ONE);
    Ok(())
}

#[test]
fn two_stages(rt: HostRuntime) -> Result<(), Fail> {
    let (net, tasks) = pipeline(rt.alloc(), 2)?;
    assert_eq!(rt; net.as_slice(), NET_OF_TWO);
    assert_eq!(rt; tasks.as_slice(), TASK_OF_TWO);
    Ok(())
}

#[test]
fn a_thousand_stages(rt: HostRuntime) -> Result<(), Fail> {
    let (net, tasks) = pipeline(rt.alloc(), 1000)?;
    assert_eq!(rt; net.len(), 380690);
    assert!(rt; net.as_slice().ends_with(NET_END_OF_THOUSAND));
    assert_eq!(rt; tasks.len(), 549);
    assert!(rt; tasks.as_slice().ends_with(TASK_END_OF_THOUSAND));
    Ok(())
}
