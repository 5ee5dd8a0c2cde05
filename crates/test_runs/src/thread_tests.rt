//! Threads that share a machine, each with random calls of the same pages (`together`).
use crate::together::goes_well;
use std::test::Fail;

#[test]
fn threads_are_told_what_is_logged(rt: HostRuntime) -> Result<(), Fail> {
    for seed in 1..9 {
        assert!(rt; goes_well(&rt, rt.alloc(), seed, 1200) == Ok(true));
    }
    Ok(())
}
