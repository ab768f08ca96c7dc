// What a seat at the lock's table knows. Contracts alone see it: no value of these types is made.
use pool_ledger::Entry;
use std::collections::LinkedList;

/// Where a pass is between two steps.
pub enum Stage {
    /// It hasn't the turn.
    Idle,
    /// It has the turn, and the slot is out with it. The value that it found had this history.
    Open(LinkedList<Entry>),
    /// It has the turn and the value, and the slot is at home with `None`.
    Taken(LinkedList<Entry>),
}

/// The view of one pass's seat.
pub struct View {
    /// The pass's own number.
    pub number: u64,
    /// The numbers that it speaks for.
    pub speaks: LinkedList<u64>,
    /// The first number that it may still give away.
    pub spare: u64,
    /// The history as it last saw it.
    pub seen: LinkedList<Entry>,
    /// The numbers of a pass that was joined in, until the two lists are compared.
    pub joined: LinkedList<u64>,
    /// The list of that pass.
    pub told: LinkedList<Entry>,
    /// Where it is between two steps.
    pub stage: Stage,
}
