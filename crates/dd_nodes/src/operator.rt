//! What joins functions: `Operator`.

/// What joins two functions or three, assignment by assignment. One of two makes nothing of the
/// third.
#[derive(Clone, Copy, PartialEq, Eq, Drop)]
pub enum Operator {
    /// 1 where the first and the second are 1.
    And,
    /// 1 where the first or the second is 1.
    Or,
    /// 1 where the first and the second differ.
    Xor,
    /// The second where the first is 1, and the third where it is 0.
    Choice,
}
