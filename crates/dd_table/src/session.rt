//! What one thread has of a table: `Session`.

ghost use Rattle.std.specs.Prelude.{◌≡◌, length};
ghost use Rattle.dd_table.specs.Sessions.{IsGoodSession};

use crate::steps::TableSeat;
use std::marker::Model;

/// What one thread has of a table: the nodes that it may use, and how many it may make. It may be
/// moved to another thread. Contracts see its table, its numbers of variables and slots, what it
/// holds, what it made, and its limit.
#[derive(Drop)]
pub struct Session {
    pub(crate) seat: TableSeat,
    pub(crate) vars: u32,
    pub(crate) slots: u32,
    pub(crate) used: u32,
    pub(crate) limit: u32,
    /// One reference that is held, or 0 where none is.
    pub(crate) some: u32,
}

impl Model for Session {
    ghost use Rattle.dd_table.specs.Sessions.{SessionValue, session_code};

    ghost Value = { SessionValue };

    ghost coded = { session_code };

    ghost use Rattle.dd_table.specs.Inside.{session_value, IsSession};

    ghost view = { session_value };

    ghost invariant = { IsSession };
}

impl Session {
    /// Shows what holds of every session.
    pub(crate) fn shown(&self)
        ensures { IsGoodSession self.now }
    {
        let _ = &self.seat;
    }

    /// The number of nodes that it made.
    pub(crate) fn used(&self) -> u32
        ensures { result ≡ length self.now.made }
    {
        self.used
    }

    /// The number of nodes that it may make in all.
    pub(crate) fn limit(&self) -> u32
        ensures { result ≡ self.now.limit }
    {
        self.limit
    }

    /// The number of variables.
    pub(crate) fn vars(&self) -> u32
        ensures { result ≡ self.now.vars }
    {
        self.vars
    }
}
