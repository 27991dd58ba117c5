//! How many peers the lines are about.

/// How many peers the lines are about, by which their orders name them.
#[derive(Clone, Copy, Debug, PartialEq, Eq)]
pub enum Form {
    /// One peer alone, which no order names: its number is 0.
    Alone,
    /// Several, of which an order names one by its number.
    Several,
}
