//! A hook that is called as each task begins; begin with `Gate`.

/// Is called for each task as a worker begins it. It is not a logic gate.
pub trait Gate {
    /// The task of this number begins.
    fn at_task(&self, task: u32);
}

/// Does nothing.
pub struct NoGate;

impl Gate for NoGate {
    fn at_task(&self, _task: u32) {}
}
