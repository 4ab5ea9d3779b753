//! The sessions, one after the other.

ghost use Rattle.std.specs.Prelude.{◌≡◌, ◌+◌, ◌-◌, ◌≤◌, drop, length, map, suc, vec_items, Err, List, IfOk, OnErr, OnOk, ℕ};
ghost use Rattle.std.specs.List.{flat_map, range_with_len};
ghost use Rattle.ot_every.specs.Listing.{most, sessions, sessions_from, sessions_of, texts_after, Earlier};
ghost use Rattle.ot_every.specs.Walking.{behind_all, AreMarks, AreShort, IsBegun, IsSame, Visits, VisitsPart};
ghost use Rattle.ot_every.specs.declared.visitor.Stop.TheVariants.{Output};

use crate::candidates::candidates;
use crate::due::may_end;
use crate::edits::texts;
use crate::settled::is_settled;
use crate::space::Space;
use crate::visitor::{Stop, Visitor};
use crate::walk::Walk;
use ot_isa::Instr;
use ot_machine::Machine;
use std::alloc::{AllocError, Global};

// How many edits there are after one more instruction.
fn made_after(instr: &Instr, made: usize) -> usize
    requires { made ≤ 1000 }
    ensures texts { (texts : List (List ℕ)) → texts_after instr.now (drop made texts) ≡ drop result texts }
    ensures most { result ≤ made + 1 }
{
    match instr {
        Instr::Edit(_, _) => made + 1,
        _ => made,
    }
}

// How many edits are left.
fn edits_left(texts: &[Vec<char>], made: usize) -> usize
    ensures { result ≡ length texts.now - made }
{
    if made < texts.len() {
        texts.len() - made
    } else {
        0
    }
}

// Visits the sessions with exactly so many more instructions, behind those of the walk.
fn visit_from<O, V: Visitor<O>>(
    alloc: Global,
    inserts: usize,
    texts: &[Vec<char>],
    walk: &mut Walk,
    made: usize,
    room: usize,
    visitor: &mut V,
    output: &mut O,
) -> Result<(), Stop>
    requires room { made + room ≤ 1000 }
    requires few { (length walk.old.machine.clients ≤ 4) × (inserts ≤ 8) }
    requires short { AreShort (map vec_items texts.now) }
    ensures ok { (path : List Earlier) → AreMarks path (length walk.old.marks.items) walk.old.marks.items → OnOk result (Visits V.visits visitor.old output.old (behind_all walk.old.instrs.items (sessions_from inserts room (drop made (map vec_items texts.now)) path walk.old.machine)) visitor.new output.new) }
    ensures same { OnOk result (IsSame walk.old walk.new) }
    ensures err { (path : List Earlier) → AreMarks path (length walk.old.marks.items) walk.old.marks.items → OnErr result (VisitsPart V.visits V.stops visitor.old output.old (behind_all walk.old.instrs.items (sessions_from inserts room (drop made (map vec_items texts.now)) path walk.old.machine)) visitor.new output.new) }
    ensures cause { result ≡ Err Output → V.failed output.new }
{
    if room == 0 {
        if made < texts.len() {
            return Ok(());
        }
        if !is_settled(&walk.machine) {
            return Ok(());
        }
        return visitor.visit(walk.instrs.as_slice(), output);
    }
    if !may_end(&walk.machine, edits_left(texts, made), room) {
        return Ok(());
    }
    let all = candidates(
        alloc,
        &walk.machine,
        walk.marks.as_slice(),
        texts,
        made,
        inserts,
    )?;
    let next = all.as_slice();
    for place in 0..next.len() {
        let instr = &next[place];
        let Some(undo) = walk.go(alloc, instr)? else {
            continue;
        };
        let made_then = made_after(instr, made);
        visit_from(
            alloc,
            inserts,
            texts,
            walk,
            made_then,
            room - 1,
            visitor,
            output,
        )?;
        walk.back(undo)?;
    }
    Ok(())
}

// How many instructions the sessions with so many edits have at most.
fn most(space: &Space, edits: usize) -> usize
    requires { edits ≤ 6 }
    ensures value { result ≡ most space.now edits }
    ensures few { result ≤ 100 }
    ensures clients { (space.now.present ≤ space.now.clients) × (space.now.clients ≤ 4) }
{
    let clients = space.clients() as usize;
    let present = space.present() as usize;
    edits * (clients + 2) + (clients - present)
}

// Visits the sessions with exactly so many edits, by their number of instructions.
fn visit_edits<O, V: Visitor<O>>(
    alloc: Global,
    space: &Space,
    walk: &mut Walk,
    edits: usize,
    visitor: &mut V,
    output: &mut O,
) -> Result<(), Stop>
    requires begun { IsBegun space.now walk.old }
    requires edits { edits ≤ 6 }
    ensures ok { OnOk result (Visits V.visits visitor.old output.old (flat_map (sessions_of space.now edits) (range_with_len 0 (suc (most space.now edits)))) visitor.new output.new) }
    ensures same { OnOk result (IsBegun space.now walk.new) }
    ensures err { OnErr result (VisitsPart V.visits V.stops visitor.old output.old (flat_map (sessions_of space.now edits) (range_with_len 0 (suc (most space.now edits)))) visitor.new output.new) }
    ensures cause { result ≡ Err Output → V.failed output.new }
{
    let texts = texts(alloc, edits, space.letters())?;
    for room in 0..most(space, edits) + 1 {
        visit_from(
            alloc,
            space.inserts(),
            texts.as_slice(),
            walk,
            0,
            room,
            visitor,
            output,
        )?;
    }
    Ok(())
}

// The walk at the opening.
fn begin(alloc: Global, space: &Space) -> Result<Walk, AllocError>
    ensures { IfOk result (IsBegun space.now) }
{
    let machine = Machine::with_present(alloc, space.clients(), space.present(), space.start())?;
    Ok(Walk {
        machine,
        instrs: Vec::new(alloc),
        marks: Vec::new(alloc),
    })
}

/// Visits each session of the space, in order. `Output` only where the visitor's output takes no more; `Memory` where a growth was refused. After an `Err` the first
/// sessions have been visited, and perhaps one visit has stopped.
pub fn visit_sessions<O, V: Visitor<O>>(
    alloc: Global,
    space: &Space,
    visitor: &mut V,
    output: &mut O,
) -> Result<(), Stop>
    ensures ok { OnOk result (Visits V.visits visitor.old output.old (sessions space.now) visitor.new output.new) }
    ensures err { OnErr result (VisitsPart V.visits V.stops visitor.old output.old (sessions space.now) visitor.new output.new) }
    ensures cause { result ≡ Err Output → V.failed output.new }
{
    let mut walk = begin(alloc, space)?;
    for edits in 0..space.edits() + 1 {
        visit_edits(alloc, space, &mut walk, edits, visitor, output)?;
    }
    Ok(())
}
