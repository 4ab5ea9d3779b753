//! Which sessions are listed.

ghost use Rattle.std.specs.Prelude.{◌≡◌, ◌≤◌, length};
ghost use Rattle.ot_every.specs.Spaces.{space_if, space_of};

use std::marker::Model;

/// Which sessions are listed: of 1 to 4 clients, of whom all are there from the start or all but the last, over a start text of at most 8 characters, with at most 6
/// edits, each of at most 8 insertions of exactly 1 to 8 letters.
#[derive(Drop)]
pub struct Space {
    clients: u16,
    present: u16,
    start: Vec<char>,
    edits: usize,
    inserts: usize,
    letters: usize,
}

impl Model for Space {
    ghost use Rattle.std.specs.Prelude.{◌≡◌, true};
    ghost use Rattle.ot_every.specs.Listing as listing;
    ghost use Rattle.ot_every.specs.Spaces.{is_space, space_in};

    ghost Value = { listing.Space };

    ghost view = { λ s. space_in s.clients s.present s.start s.edits s.inserts s.letters };

    ghost invariant = { λ s. is_space (space_in s.clients s.present s.start s.edits s.inserts s.letters) ≡ true };
}

impl Space {
    /// The space; none where a number is out of its range, or the start text too long. With `is_join` the last client joins late.
    pub fn new(
        clients: u32,
        is_join: bool,
        start: Vec<char>,
        edits: u32,
        inserts: u32,
        letters: u32,
    ) -> Option<Space>
        ensures { result ≡ space_if (space_of clients is_join start.items edits inserts letters) }
    {
        if clients < 1 || clients > 4 || start.len() > 8 || edits > 6 {
            return None;
        }
        if inserts > 8 || letters < 1 || letters > 8 {
            return None;
        }
        let present = if is_join { clients - 1 } else { clients };
        Some(Space {
            clients: clients as u16,
            present: present as u16,
            start,
            edits: edits as usize,
            inserts: inserts as usize,
            letters: letters as usize,
        })
    }

    /// How many clients there are.
    pub fn clients(&self) -> u16
        ensures value { result ≡ self.now.clients }
        ensures range { (1 ≤ self.now.clients) × (self.now.clients ≤ 4) }
    {
        self.clients
    }

    /// How many of them, the first ones, are there from the start.
    pub fn present(&self) -> u16
        ensures value { result ≡ self.now.present }
        ensures most { self.now.present ≤ self.now.clients }
    {
        self.present
    }

    /// The start text.
    pub fn start(&self) -> &[char]
        ensures value { result.now ≡ self.now.start }
        ensures short { length self.now.start ≤ 8 }
    {
        self.start.as_slice()
    }

    // How many edits there are at most.
    pub(crate) fn edits(&self) -> usize
        ensures value { result ≡ self.now.edits }
        ensures few { result ≤ 6 }
    {
        self.edits
    }

    // How many insertions an edit has at most.
    pub(crate) fn inserts(&self) -> usize
        ensures value { result ≡ self.now.inserts }
        ensures few { result ≤ 8 }
    {
        self.inserts
    }

    // Of how many letters an insertion is.
    pub(crate) fn letters(&self) -> usize
        ensures value { result ≡ self.now.letters }
        ensures few { result ≤ 8 }
    {
        self.letters
    }
}
