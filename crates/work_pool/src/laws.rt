//! The law of this crate: the contract of a function that does nothing.

ghost use Rattle.work_pool.specs.Pool.{PoolsAgree};

/// Two checks of the same tasks agree on each task, whatever the steps and the schedules.
pub fn pools_agree()
    ensures { PoolsAgree }
{}
