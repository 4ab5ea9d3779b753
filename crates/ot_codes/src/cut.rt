//! The text of a composition, as a change of the first operation's.

ghost use Rattle.std.specs.Prelude.{◌≡◌, ◌+◌, ◌-◌, ◌≤◌, [], ◌++◌, length, take, drop, IfOk, OnOk};
ghost use Rattle.ot_operation.specs.declared.TheConstants.{LIMIT};
ghost use Rattle.ot_codes.specs.Cuts.{AreWithin, assembled, longer, meets, with_cut};
ghost use Rattle.ot_codes.specs.Splice.{HasDeleted, HasInserted, HasKept};

use ot_operation::Element;
use std::alloc::{AllocError, Global};

/// In a text `gone` elements are deleted, from place `at` on, and `put` elements of another text are inserted there, from its place `from` on.
#[derive(Clone, Copy)]
pub struct Cut {
    pub at: u32,
    pub gone: u32,
    pub from: u32,
    pub put: u32,
}

impl Cut {
    // The next cut begins where this one ends, in both texts.
    fn meets(self, next: Cut) -> bool
        requires first { self.at + self.gone ≤ LIMIT }
        requires second { self.from + self.put ≤ LIMIT }
        ensures { result ≡ meets self next }
    {
        self.at + self.gone == next.at && self.from + self.put == next.from
    }

    // The two as one.
    fn longer(self, next: Cut) -> Cut
        requires gone { self.gone + next.gone ≤ LIMIT }
        requires put { self.put + next.put ≤ LIMIT }
        ensures { result ≡ longer self next }
    {
        Cut {
            gone: self.gone + next.gone,
            put: self.put + next.put,
            ..self
        }
    }
}

/// The cuts that are written, and how much of both texts is gone through.
#[derive(Drop)]
pub(crate) struct Splice {
    pub(crate) cuts: Vec<Cut>,
    at: u32,
    from: u32,
}

impl Splice {
    /// Nothing is gone through. Takes no memory; later calls take theirs from `alloc`.
    pub(crate) fn new(alloc: Global) -> Splice
        ensures cuts { result.cuts.items ≡ [] }
        ensures at { result.at ≡ 0 }
        ensures from { result.from ≡ 0 }
    {
        Splice {
            cuts: Vec::new(alloc),
            at: 0,
            from: 0,
        }
    }

    /// The next `count` elements of the first text are retained.
    pub(crate) fn keep(&mut self, count: u32)
        requires { self.old.at + count ≤ LIMIT }
        ensures { HasKept self.old self.new count }
    {
        self.at += count;
    }

    /// The next `count` elements of the first text are deleted.
    pub(crate) fn delete(&mut self, count: u32) -> Result<(), AllocError>
        requires within { AreWithin 0 self.old.cuts.items self.old.at self.old.from }
        requires fits { self.old.at + count ≤ LIMIT }
        requires fits_second { self.old.from ≤ LIMIT }
        ensures { OnOk result (HasDeleted self.old self.new count) }
    {
        let cut = Cut {
            at: self.at,
            gone: count,
            from: self.from,
            put: 0,
        };
        add_cut(&mut self.cuts, cut)?;
        self.at += count;
        Ok(())
    }

    /// The next `count` elements of the second text are inserted.
    pub(crate) fn insert(&mut self, count: u32) -> Result<(), AllocError>
        requires within { AreWithin 0 self.old.cuts.items self.old.at self.old.from }
        requires fits { self.old.at ≤ LIMIT }
        requires fits_second { self.old.from + count ≤ LIMIT }
        ensures { OnOk result (HasInserted self.old self.new count) }
    {
        let cut = Cut {
            at: self.at,
            gone: 0,
            from: self.from,
            put: count,
        };
        add_cut(&mut self.cuts, cut)?;
        self.from += count;
        Ok(())
    }
}

// Adds a cut; one that begins where the last one ends, in both texts, lengthens it.
fn add_cut(cuts: &mut Vec<Cut>, cut: Cut) -> Result<(), AllocError>
    requires within { AreWithin 0 cuts.old.items cut.at cut.from }
    requires fits { cut.at + cut.gone ≤ LIMIT }
    requires fits_second { cut.from + cut.put ≤ LIMIT }
    ensures { OnOk result (cuts.new.items ≡ with_cut cuts.old.items cut) }
{
    let length = cuts.len();
    if length == 0 {
        cuts.push(cut)?;
        return Ok(());
    }
    let last = cuts[length - 1];
    if last.meets(cut) {
        cuts[length - 1] = last.longer(cut);
        return Ok(());
    }
    cuts.push(cut)?;
    Ok(())
}

/// The text that cuts make of two texts, with memory from `alloc`: the first one, in which elements are deleted and others inserted from the second. `AllocError`
/// where memory was refused.
pub fn assemble<T: Element>(
    alloc: Global,
    cuts: &[Cut],
    first: &[T],
    second: &[T],
) -> Result<Vec<T>, AllocError>
    requires { AreWithin 0 cuts.now (length first.now) (length second.now) }
    ensures { IfOk result (λ text. text.items ≡ assembled cuts.now first.now second.now) }
{
    let mut text = Vec::new(alloc);
    let mut at = 0usize;
    for cut in cuts {
        add_part(&mut text, *cut, at, first, second)?;
        at = cut.at as usize + cut.gone as usize;
    }
    text.extend_from_slice(&first[at..])?;
    Ok(text)
}

// Adds what is retained before a cut, from place `at` of the first text on, and what is inserted there.
fn add_part<T: Element>(
    text: &mut Vec<T>,
    cut: Cut,
    at: usize,
    first: &[T],
    second: &[T],
) -> Result<(), AllocError>
    requires order { at ≤ cut.at }
    requires within_first { cut.at ≤ length first.now }
    requires within_second { cut.from + cut.put ≤ length second.now }
    ensures { OnOk result (text.new.items ≡ text.old.items ++ (take (cut.at - at) (drop at first.now) ++ take cut.put (drop cut.from second.now))) }
{
    text.extend_from_slice(&first[at..cut.at as usize])?;
    let from = cut.from as usize;
    text.extend_from_slice(&second[from..from + cut.put as usize])?;
    Ok(())
}
