//! How eager clients are.

use crate::chance::below;
use rand_pcg::Pcg32;
use std::alloc::{AllocError, Global};

/// A client that lags, two ordinary ones, and an eager one.
const PACES: [u32; 4] = [1, 5, 5, 15];

/// How eagerly each client edits and receives, as weights. Some clients lag far behind, and some type much into their buffers.
#[derive(Drop)]
pub struct Habits {
    edits: Vec<u32>,
    receipts: Vec<u32>,
}

fn draw_paces(alloc: Global, chance: &mut Pcg32, clients: u16) -> Result<Vec<u32>, AllocError> {
    let mut paces = Vec::with_capacity(alloc, clients as usize)?;
    for client in 0..clients {
        let _ = client;
        paces.push(PACES[below(chance, 4) as usize])?;
    }
    Ok(paces)
}

fn pace(paces: &[u32], client: u16) -> u32 {
    paces.get(client as usize).copied().unwrap_or(5)
}

impl Habits {
    pub fn draw(alloc: Global, chance: &mut Pcg32, clients: u16) -> Result<Habits, AllocError> {
        let edits = draw_paces(alloc, chance, clients)?;
        let receipts = draw_paces(alloc, chance, clients)?;
        Ok(Habits { edits, receipts })
    }

    /// The weight of an edit of the client.
    pub fn typing(&self, client: u16) -> u32 {
        pace(self.edits.as_slice(), client)
    }

    /// The weight of a receipt by the client.
    pub fn hearing(&self, client: u16) -> u32 {
        pace(self.receipts.as_slice(), client)
    }
}
