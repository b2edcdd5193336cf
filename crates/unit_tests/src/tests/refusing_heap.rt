//! The heap that refuses, by itself.
use std::test::Fail;
use test_support::{has_leaked, mark, refuse, was_refused};

/// The heap for tests does what its words ask.
#[test]
fn refused_allocations_are_those_asked_for(rt: HostRuntime) -> Result<(), Fail> {
    let alloc = rt.alloc();
    mark(alloc);
    let is_armed = refuse(alloc, 2);
    let first = Vec::<u8>::with_capacity(alloc, 10);
    let second = Vec::<u8>::with_capacity(alloc, 10);
    let third = Vec::<u8>::with_capacity(alloc, 10);
    assert!(rt; was_refused(alloc) == is_armed);
    assert!(rt; first.is_ok() && third.is_ok());
    assert!(rt; second.is_err() == is_armed);
    assert!(rt; has_leaked(alloc) == is_armed);
    drop(first);
    drop(second);
    drop(third);
    assert!(rt; !has_leaked(alloc));
    Ok(())
}
