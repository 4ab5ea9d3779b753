//! What a test sees of the workers, and where it can hold them up.

/// Called by workers without the lock. Both calls return.
pub trait Gate: Sync {
    /// The worker holds a session and is about to make its steps.
    fn holding(&self, worker: usize, turn: u64);

    /// The worker has settled a session.
    fn settled(&self, worker: usize, turn: u64);
}

/// Holds nobody up.
#[derive(Clone, Copy, Debug)]
pub struct OpenGate;

impl Gate for OpenGate {
    fn holding(&self, _worker: usize, _turn: u64) {}

    fn settled(&self, _worker: usize, _turn: u64) {}
}
