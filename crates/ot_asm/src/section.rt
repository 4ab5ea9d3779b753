//! Where in a text a line stands.

/// Below `clients`, below `present`, or below the head.
#[derive(Clone, Copy, Debug, PartialEq, Eq)]
pub enum Section {
    AfterClients,
    AfterPresent,
    InBody,
}
