//! By what an assertion is checked: `Mode`.

/// By what an assertion is checked. A graph is checked by sets in both modes.
#[derive(Clone, Copy, PartialEq, Eq)]
pub enum Mode {
    /// By sets of bits: symbolic trajectory evaluation.
    Sets,
    /// On two-valued runs, with a variable for each choice that the assertion leaves open.
    Exact,
}
