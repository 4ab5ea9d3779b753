//! One event of a trace.

ghost use Rattle.std.specs.Prelude.{◌≡◌, ◌+◌, ◌≤◌, ◌++◌, filter, not, length, take, IfOk, OnOk};
ghost use Rattle.std.specs.HashSet.{contains as set_contains};
ghost use Rattle.ot_isa.specs.declared.elements.Tag.{Tag};
ghost use Rattle.ot_isa.specs.Tagging.{tagged_operation};
ghost use Rattle.ot_operation.specs.Operation.{news};
ghost use Rattle.ot_operation.specs.Run.{image_from, operation_of};
ghost use Rattle.ot_model.specs.Trace.{contains, same_tag};
ghost use Rattle.ot_model.specs.Events.{insertions_from, tags};
ghost use Rattle.ot_judge.specs.Views.{event_view};
ghost use Rattle.ot_check.specs.Insertions.{placed_run};
ghost use Rattle.ot_check.specs.Rows.{edit_made, read_event};
ghost use Rattle.ot_isa.specs.declared.tagging.TheConstants.{INSERTED_LIMIT};
ghost use Rattle.ot_operation.specs.declared.TheConstants.{LIMIT};

use ot_isa::{Tag, Tagged};
use ot_judge::{Event, Placed};
use ot_text::{ComponentRef, Components, Doc, TextOp};
use std::alloc::{AllocError, Global};
use std::collections::HashSet;

// Adds the tags of a piece of a list.
fn push_tags(found: &mut Vec<Tag>, piece: &[Tagged]) -> Result<(), AllocError>
    ensures { OnOk result (found.new.items ≡ found.old.items ++ tags piece.now) }
{
    for item in piece {
        found.push(item.tag)?;
    }
    Ok(())
}

// The tags of a list, in order. There is room for all of them before the first one, so none is left over.
pub(crate) fn tags_of(alloc: Global, document: &Doc<Tagged>) -> Result<Vec<Tag>, AllocError>
    ensures { IfOk result (λ v. v.items ≡ tags document.now) }
{
    let mut found = Vec::with_capacity(alloc, document.len())?;
    let mut ahead = document.pieces();
    while let Some(piece) = ahead.next() {
        push_tags(&mut found, piece)?;
    }
    Ok(found)
}

// The tags of a list as a set.
#[tactic(auto, using(ot_judge::proofs::TagLemmas::tag_steps))]
fn set_of(alloc: Global, list: &[Tag]) -> Result<HashSet<Tag>, AllocError>
    ensures { IfOk result (λ s. (q : Tag) → set_contains same_tag s q ≡ contains list.now q) }
{
    let mut set = HashSet::new(alloc);
    for tag in list {
        set.insert(*tag)?;
    }
    Ok(set)
}

// Those tags of a list that are not in a set, in order.
fn outside(alloc: Global, set: &HashSet<Tag>, list: &[Tag]) -> Result<Vec<Tag>, AllocError>
    ensures { IfOk result (λ v. v.items ≡ filter (λ t. not (set_contains same_tag set.now t)) list.now) }
{
    list.iter()
        .copied()
        .filter(|tag| !set.contains(tag))
        .collect(alloc)
}

// How many tags two lists begin with that are the same.
fn same_tags(a: &[Tag], b: &[Tag]) -> usize
    ensures first { result ≤ length a.now }
    ensures second { result ≤ length b.now }
    ensures same { take result a.now ≡ take result b.now }
{
    let shorter = a.len().min(b.len());
    for place in 0..shorter {
        if a[place] != b[place] {
            return place;
        }
    }
    shorter
}

// Those tags of a list that are not in the one after, in order.
fn missing(alloc: Global, list: &[Tag], after: &[Tag]) -> Result<Vec<Tag>, AllocError>
    ensures { IfOk result (λ v. v.items ≡ filter (λ t. not (contains after.now t)) list.now) }
{
    let kept = set_of(alloc, after)?;
    outside(alloc, &kept, list)
}

// Those tags of the list before that are not in the one after, in order. Where tags were put in at one place alone there are none, and no
// set is made.
fn deletions(alloc: Global, before: &[Tag], after: &[Tag]) -> Result<Vec<Tag>, AllocError>
    ensures { IfOk result (λ v. v.items ≡ filter (λ t. not (contains after.now t)) before.now) }
{
    let rest = &before[same_tags(before, after)..];
    if rest.len() <= after.len()
        && same_tags(rest, &after[after.len() - rest.len()..]) == rest.len()
    {
        return Ok(Vec::new(alloc));
    }
    missing(alloc, rest, after)
}

// Adds `count` neighbours, of one maker, numbered from `first` on, the first at `place`.
fn push_placed(
    placed: &mut Vec<Placed>,
    origin: u16,
    first: u32,
    place: usize,
    count: usize,
) -> Result<(), AllocError>
    requires serials { first + count ≤ INSERTED_LIMIT }
    requires places { place + count ≤ LIMIT }
    ensures { OnOk result (placed.new.items ≡ placed.old.items ++ placed_run origin first place count) }
{
    for i in 0..count {
        let tag = Tag {
            origin,
            serial: first + i as u32,
        };
        placed.push(Placed {
            tag,
            place: place + i,
        })?;
    }
    Ok(())
}

// What the components insert, with its places in the list after them.
fn insertions_of(
    alloc: Global,
    components: Components<'_, char>,
    origin: u16,
    first: u32,
) -> Result<Vec<Placed>, AllocError>
    requires serials { first + length (news (image_from 0 components)) ≤ INSERTED_LIMIT }
    requires target { length (image_from 0 components) ≤ LIMIT }
    ensures { IfOk result (λ v. v.items ≡ insertions_from 0 (tagged_operation (operation_of components.entry) origin first).image) }
{
    let mut placed = Vec::new(alloc);
    let mut serial = first;
    let mut place: usize = 0;
    for component in components {
        match component {
            ComponentRef::Retain(count) => place += count,
            ComponentRef::Insert(text) => {
                push_placed(&mut placed, origin, serial, place, text.len())?;
                serial += text.len() as u32;
                place += text.len();
            }
            ComponentRef::Delete(_count) => {}
        }
    }
    Ok(placed)
}

// What the operation inserts: of this maker, numbered from `first` on from left to right.
fn insertions(
    alloc: Global,
    op: &TextOp<char>,
    origin: u16,
    first: u32,
) -> Result<Vec<Placed>, AllocError>
    requires { first + length (news op.now.image) ≤ INSERTED_LIMIT }
    ensures { IfOk result (λ v. v.items ≡ insertions_from 0 (tagged_operation op.now origin first).image) }
{
    insertions_of(alloc, op.components(), origin, first)
}

// The event of an edit: `before` are the tags of the client's list before it, `document` is its list after it, and `first`
// the serial number of what it inserts.
pub(crate) fn edit_event(
    alloc: Global,
    client: u16,
    op: &TextOp<char>,
    first: u32,
    seen: Vec<u32>,
    before: &[Tag],
    document: &Doc<Tagged>,
) -> Result<Event, AllocError>
    requires { first + length (news op.now.image) ≤ INSERTED_LIMIT }
    ensures { IfOk result (λ x. event_view x ≡ edit_made client (tagged_operation op.now client first) before.now (tags document.now) seen.items) }
{
    let list = tags_of(alloc, document)?;
    let inserted = insertions(alloc, op, client, first)?;
    let deleted = deletions(alloc, before, list.as_slice())?;
    Ok(Event {
        replica: client as usize,
        edit: true,
        seen,
        inserted,
        deleted,
        list,
    })
}

// The event of a read.
pub(crate) fn read_event(
    alloc: Global,
    replica: usize,
    seen: Vec<u32>,
    document: &Doc<Tagged>,
) -> Result<Event, AllocError>
    ensures { IfOk result (λ x. event_view x ≡ read_event replica (tags document.now) seen.items) }
{
    let list = tags_of(alloc, document)?;
    Ok(Event {
        replica,
        edit: false,
        seen,
        inserted: Vec::new(alloc),
        deleted: Vec::new(alloc),
        list,
    })
}
