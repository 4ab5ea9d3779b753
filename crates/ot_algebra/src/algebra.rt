//! Two operations: one after the other, or both on one document.

ghost use Rattle.std.specs.Prelude.{◌≡◌, ◌+◌, ◌≤◌, length, IfOk, OnOk, OnErr};
ghost use Rattle.ot_operation.specs.Operation.{news};
ghost use Rattle.ot_operation.specs.declared.TheConstants.{LIMIT};
ghost use Rattle.ot_operation.specs.Compose.{compose as composition};
ghost use Rattle.ot_operation.specs.Merge.{first_after, second_after};
ghost use Rattle.ot_codes.specs.Shape.{shape};

use ot_codes::Codes;
use ot_text::{Element, TextOp};
use std::alloc::{AllocError, Global};

/// First `a`, then `b`, as one operation: applying it is applying `a` and then `b` (`compose` of ot.js' `TextOperation`).
///
/// `b` takes what `a` makes: `a.target_len() == b.base_len()`, in elements. What `a` inserts and `b` deletes is gone from
/// the result, and what either deletes of the document is deleted by it.
///
/// `Err` comes only where memory was refused; `a` and `b` are only read.
pub fn compose<T: Element>(
    alloc: Global,
    a: &TextOp<T>,
    b: &TextOp<T>,
) -> Result<TextOp<T>, AllocError>
    requires { length a.now.image ≡ b.now.base }
    ensures { IfOk result (λ op. op ≡ composition a.now b.now) }
{
    let composed = ot_codes::compose(alloc, a.codes(), b.codes())?;
    let text = ot_codes::assemble(alloc, composed.cuts.as_slice(), a.text(), b.text())?;
    Ok(TextOp::from_parts(composed.codes, text))
}

/// What `a` becomes after `b`, and what `b` becomes after `a` (`transform` of ot.js' `TextOperation`): `a` and then the
/// second result make the same document as `b` and then the first.
///
/// Both take one document: `a.base_len() == b.base_len()`, in elements. The base and all insertions together are at most
/// 1,000,000, so that neither result is too long. Where both insert at one place, the text of `a` comes first. What both
/// delete is deleted by neither result. Equal elements are distinct elements: what the other inserted is kept.
///
/// `Err` comes only where memory was refused; `a` and `b` are only read.
pub fn transform<T: Element>(
    alloc: Global,
    a: &TextOp<T>,
    b: &TextOp<T>,
) -> Result<(TextOp<T>, TextOp<T>), AllocError>
    requires same_base { a.now.base ≡ b.now.base }
    requires fits { a.now.base + length (news a.now.image) + length (news b.now.image) ≤ LIMIT }
    ensures { IfOk result (λ pair. pair ≡ (first_after a.now b.now, second_after a.now b.now)) }
{
    let (first, second) = ot_codes::transform(alloc, a.codes(), b.codes())?;
    Ok((a.with_codes(first)?, b.with_codes(second)?))
}

/// What `a` becomes after `b`: the first result of `transform`, under its conditions, for an `a` that is no longer needed. The text of `a` moves.
///
/// `Err` comes only where memory was refused, and `a` is gone then; `b` is only read.
pub fn transform_first<T: Element>(mut a: TextOp<T>, b: &TextOp<T>) -> Result<TextOp<T>, AllocError>
    requires same_base { a.base ≡ b.now.base }
    requires fits { a.base + length (news a.image) + length (news b.now.image) ≤ LIMIT }
    ensures { IfOk result (λ op. op ≡ first_after a b.now) }
{
    transform_in_place(&mut a, b)?;
    Ok(a)
}

/// Makes of `a` what it becomes after `b`: the first result of `transform`, under its conditions, as a server needs it to transform an operation against its log. The
/// text of `a` stays where it lies.
///
/// `Err` comes only where memory was refused, and `a` is as it was then; `b` is only read.
pub fn transform_in_place<T: Element>(a: &mut TextOp<T>, b: &TextOp<T>) -> Result<(), AllocError>
    requires same_base { a.old.base ≡ b.now.base }
    requires fits { a.old.base + length (news a.old.image) + length (news b.now.image) ≤ LIMIT }
    ensures ok { OnOk result (a.new ≡ first_after a.old b.now) }
    ensures err { OnErr result (a.new ≡ a.old) }
{
    let mut first = ot_codes::transform_first(a.allocator(), a.codes(), b.codes())?;
    a.exchange_codes(&mut first);
    Ok(())
}

/// What `b` becomes after `a`: the second result of `transform`, under its conditions.
///
/// `Err` comes only where memory was refused; `a` and `b` are only read.
pub fn transform_second<T: Element>(a: &TextOp<T>, b: &TextOp<T>) -> Result<TextOp<T>, AllocError>
    requires same_base { a.now.base ≡ b.now.base }
    requires fits { a.now.base + length (news a.now.image) + length (news b.now.image) ≤ LIMIT }
    ensures { IfOk result (λ op. op ≡ second_after a.now b.now) }
{
    let (_, second) = ot_codes::transform(a.allocator(), a.codes(), b.codes())?;
    b.with_codes(second)
}

/// Makes of `b` what it becomes after `a`, and gives the codes of what `a` becomes after `b`: the results of `transform`, under its conditions. Both texts stay where
/// they lie.
///
/// `Err` comes only where memory was refused, and `b` is as it was then; `a` is only read.
pub fn transform_codes_in_place<T: Element>(
    a: &TextOp<T>,
    b: &mut TextOp<T>,
) -> Result<Codes, AllocError>
    requires same_base { a.now.base ≡ b.old.base }
    requires fits { a.now.base + length (news a.now.image) + length (news b.old.image) ≤ LIMIT }
    ensures codes { IfOk result (λ first. first ≡ shape (first_after a.now b.old)) }
    ensures op { OnOk result (b.new ≡ second_after a.now b.old) }
    ensures err { OnErr result (b.new ≡ b.old) }
{
    let (first, mut second) = ot_codes::transform(a.allocator(), a.codes(), b.codes())?;
    b.exchange_codes(&mut second);
    Ok(first)
}

/// The codes of what `a` becomes after `b`, whose text is that of `a`; and what `b` becomes after `a`: the results of `transform`, under its conditions.
///
/// `Err` comes only where memory was refused; `a` and `b` are only read.
pub fn transform_codes<T: Element>(
    a: &TextOp<T>,
    b: &TextOp<T>,
) -> Result<(Codes, TextOp<T>), AllocError>
    requires same_base { a.now.base ≡ b.now.base }
    requires fits { a.now.base + length (news a.now.image) + length (news b.now.image) ≤ LIMIT }
    ensures codes { IfOk result (λ given. given.0 ≡ shape (first_after a.now b.now)) }
    ensures op { IfOk result (λ given. given.1 ≡ second_after a.now b.now) }
{
    let (first, second) = ot_codes::transform(a.allocator(), a.codes(), b.codes())?;
    Ok((first, b.with_codes(second)?))
}
