//! Operations and documents over tagged characters.

ghost use Rattle.std.specs.Prelude.{◌≡◌, ◌+◌, ◌≤◌, length, IfOk};
ghost use Rattle.std.specs.Str.{encode_utf8_all};
ghost use Rattle.std.specs.String.{string_bytes};
ghost use Rattle.ot_operation.specs.Operation.{news};
ghost use Rattle.ot_isa.specs.Tagging.{tagged_chars, tagged_operation, chars_of, HasNoTagTwice};
ghost use Rattle.ot_isa.specs.declared.builder.TheConstants.{START_LIMIT};

use crate::elements::{Tag, Tagged};
use ot_text::{Doc, TextOp};
use std::alloc::{AllocError, Global};

/// The maker of the start text, which is no client's number.
pub const START_ORIGIN: u16 = 65_535;

/// How many characters a client inserts in a run at most. Deletions give nothing back.
pub const INSERTED_LIMIT: usize = 15_000;

fn tagged_text(
    alloc: Global,
    text: &[char],
    origin: u16,
    first: u32,
) -> Result<Vec<Tagged>, AllocError>
    requires { first + length text.now ≤ START_LIMIT }
    ensures { IfOk result (λ v. v.items ≡ tagged_chars origin first text.now) }
{
    let mut items = Vec::new(alloc);
    let mut serial = first;
    for ch in text {
        let tag = Tag { origin, serial };
        items.push(Tagged { ch: *ch, tag })?;
        serial += 1;
    }
    Ok(items)
}

/// The operation over tagged characters: what it inserts is of this maker, numbered from `first` on from left to
/// right; what it keeps and deletes stays. A client makes at most 15,000 characters: `first` and the number of inserted characters together
/// are at most that.
pub fn tagged(
    alloc: Global,
    op: &TextOp<char>,
    origin: u16,
    first: u32,
) -> Result<TextOp<Tagged>, AllocError>
    requires { first + length (news op.now.image) ≤ INSERTED_LIMIT }
    ensures { IfOk result (λ t. t ≡ tagged_operation op.now origin first) }
{
    let text = tagged_text(alloc, op.text(), origin, first)?;
    let codes = op.codes().copy()?;
    Ok(TextOp::from_parts(codes, text))
}

/// The document that a run starts with, of at most 40,000 characters: they are tagged 65,535:0, 65,535:1, and so on.
pub fn start_doc(alloc: Global, start: &[char]) -> Result<Doc<Tagged>, AllocError>
    requires { length start.now ≤ START_LIMIT }
    ensures value { IfOk result (λ d. d ≡ tagged_chars 65535 0 start.now) }
    ensures tags { IfOk result (λ d. HasNoTagTwice d) }
{
    let items = tagged_text(alloc, start, START_ORIGIN, 0)?;
    Doc::from_slice(alloc, items.as_slice())
}

/// The document's text without the tags, in UTF-8.
pub fn plain(alloc: Global, document: &Doc<Tagged>) -> Result<String, AllocError>
    ensures { IfOk result (λ s. string_bytes s ≡ encode_utf8_all (chars_of document.now)) }
{
    let items = document.to_vec()?;
    items.iter().map(|item| item.ch).collect(alloc)
}
