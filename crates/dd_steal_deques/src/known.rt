use std::collections::LinkedList;

/// What a pass knows: whether it owns the deque, how many numbers it gave and how many passes it
/// made, whether it is unspent, and what it took. Contracts speak of such a value, and no code
/// makes one.
pub struct Known {
    pub owns: bool,
    pub count: u64,
    pub passes: u64,
    pub live: bool,
    pub taken: LinkedList<u64>,
}
