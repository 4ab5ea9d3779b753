//! Lists compared with the server's.

ghost use Rattle.std.specs.Prelude.{◌≡◌, ◌↔◌, slice_get, IsTrue};
ghost use Rattle.ot_check.specs.Convergence.{first_difference, first_unequal};

use ot_isa::Tagged;
use ot_text::Doc;

// The two lists have the same element there, or none.
fn same_at(a: &Doc<Tagged>, b: &Doc<Tagged>, place: usize) -> bool
    ensures { IsTrue result ↔ (slice_get a.now place ≡ slice_get b.now place) }
{
    a.get(place) == b.get(place)
}

// The first place at which two lists are not equal, in elements; where one is the beginning of the other, the shorter
// length. Equal lists are compared in one pass.
pub(crate) fn first_unequal(a: &Doc<Tagged>, b: &Doc<Tagged>) -> Option<usize>
    ensures { result ≡ first_unequal a.now b.now }
{
    if a.equals(b) {
        return None;
    }
    let shorter = a.len().min(b.len());
    for place in 0..shorter {
        if !same_at(a, b, place) {
            return Some(place);
        }
    }
    Some(shorter)
}

/// The number of the first document that is not the server's, characters and tags, with the first place (from 0, in
/// elements) at which it is not; where one of the two is the beginning of the other, that place is the shorter length.
/// `None` where each is the server's. Takes no memory.
pub fn differs(documents: &[Doc<Tagged>], server: &Doc<Tagged>) -> Option<(usize, usize)>
    ensures { result ≡ first_difference documents.now server.now }
{
    for number in 0..documents.len() {
        if let Some(place) = first_unequal(&documents[number], server) {
            return Some((number, place));
        }
    }
    None
}
