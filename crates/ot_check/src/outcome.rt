//! What a comparison of all lists answers.

/// What of a joined client is not settled, with the client's number.
#[derive(Clone, Copy, Debug, PartialEq, Eq)]
pub enum Unsettled {
    /// The client is not synchronized: it waits for a confirmation.
    Client(u16),
    /// A message is on its way from the client to the server.
    Up(u16),
    /// A message is on its way from the server to the client.
    Down(u16),
}

/// Whether all is quiet, and whether then all lists are equal.
#[derive(Clone, Copy, Debug, PartialEq, Eq)]
pub enum Convergence {
    /// No message is under way, every joined client is synchronized, and each one's list is the server's, tags included.
    Quiet,
    /// The first that is not settled: of the joined client with the least number, in the order of `Unsettled`.
    NotQuiet(Unsettled),
    /// All is quiet, and this joined client, the first one, has another list than the server, from this place on (in
    /// elements, from 0). It never comes.
    Differs(u16, usize),
}
