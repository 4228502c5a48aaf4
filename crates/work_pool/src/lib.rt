//! Tasks shared out to workers over one table of nodes; begin with `run_tasks`.
#![tactic(auto)]

pub mod alone;
mod batch;
pub mod gate;
pub mod laws;
pub mod mode;
mod pool;
pub mod run;
mod turns;
pub mod width;

pub use alone::{AloneAnswer, run_alone};
pub use gate::{Gate, NoGate};
pub use mode::Mode;
pub use run::{PoolAnswer, run_exact, run_some, run_tasks};
pub use width::{table_width, task_width};
