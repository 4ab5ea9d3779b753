//! A session made at random.

ghost use Rattle.std.specs.Prelude.{◌≡◌, ◌+◌, ◌≤◌, suc, true, false, length, IfOk, IfSome, OnOk};
ghost use Rattle.ot_model.specs.Table.{IsQuiet};
ghost use Rattle.ot_machine.specs.Orders.{IsWhole};
ghost use Rattle.ot_generate.specs.Generated.{reads_from, BeginsAs, EndsRead, IsGenerated, IsOpened, IsWandered};
ghost use Rattle.ot_generate.specs.Shapes.{made};
ghost use Rattle.ot_generate.specs.Walks.{IsAlong, IsRead};
ghost use Rattle.ot_isa.specs.declared.builder.TheConstants.{START_LIMIT};

use crate::chance::{below, draw_text};
use crate::habits::Habits;
use crate::shape::Shape;
use crate::walk::Walk;
use ot_isa::{INSTR_LIMIT, Schedule};
use rand_core::SeedableRng;
use rand_pcg::Pcg32;
use std::alloc::{AllocError, Global};

/// How long a start text is that nobody asked for.
const LENGTHS: [usize; 4] = [0, 1, 3, 6];

// As many present clients as are asked for; else mostly all of them.
fn draw_present(chance: &mut Pcg32, shape: &Shape) -> u16
    ensures most { result ≤ shape.now.clients }
    ensures given { IfSome shape.now.present (λ p. result ≡ p) }
{
    let present = match shape.present {
        Some(present) => present,
        None if below(chance, 5) < 2 => below(chance, shape.clients + 1),
        None => shape.clients,
    };
    present as u16
}

// The text that is asked for, or else a short one.
fn draw_start(alloc: Global, chance: &mut Pcg32, shape: &Shape) -> Result<Vec<char>, AllocError>
    ensures given { IfOk result (λ t. IfSome shape.now.start (λ text. t.items ≡ text)) }
    ensures short { IfOk result (λ t. length t.items ≤ START_LIMIT) }
{
    match &shape.start {
        Some(text) => {
            let text = Vec::from_slice(alloc, text.as_slice())?;
            Ok(text)
        }
        None => {
            let length = LENGTHS[below(chance, 4) as usize];
            draw_text(alloc, chance, length)
        }
    }
}

// How many instructions are made before the reads at the end.
fn instructions_before_reads(shape: &Shape) -> usize
    ensures value { result ≡ made shape.now }
    ensures most { result ≤ INSTR_LIMIT }
{
    let asked = shape.instructions as usize;
    if shape.is_open {
        asked
    } else {
        asked.min(INSTR_LIMIT - 1 - shape.clients as usize)
    }
}

fn begin(alloc: Global, chance: &mut Pcg32, shape: &Shape) -> Result<Walk, AllocError>
    ensures { IfOk result (λ walk. IsOpened shape.now walk) }
{
    let present = draw_present(chance, shape);
    let start = draw_start(alloc, chance, shape)?;
    let clients = shape.clients as u16;
    Walk::new(
        alloc,
        clients,
        present,
        start.as_slice(),
        instructions_before_reads(shape),
        shape.is_open,
    )
}

// Goes on as long as anything is possible.
fn wander(walk: &mut Walk, chance: &mut Pcg32, habits: &Habits) -> Result<(), AllocError>
    ensures along { OnOk result (IsAlong walk.old walk.new) }
    ensures full { OnOk result (length walk.new.recorded.instrs ≡ walk.new.room) }
    ensures quiet { OnOk result (walk.new.is_open ≡ false → IsQuiet walk.new.state) }
{
    while let Some(next) = walk.choose(chance, habits) {
        walk.make(chance, next)?;
    }
    Ok(())
}

fn wandered(alloc: Global, seed: u64, shape: &Shape) -> Result<Walk, AllocError>
    ensures { IfOk result (λ walk. IsWandered shape.now walk) }
{
    let mut chance = Pcg32::seed_from_u64(seed);
    let mut walk = begin(alloc, &mut chance, shape)?;
    let habits = Habits::draw(alloc, &mut chance, walk.clients())?;
    wander(&mut walk, &mut chance, &habits)?;
    Ok(walk)
}

// Reads each joined client, and then the server.
fn read_all(walk: &mut Walk) -> Result<(), AllocError>
    requires is_open { walk.old.is_open ≡ true }
    requires room { length walk.old.recorded.instrs + suc (length walk.old.state.clients) ≤ walk.old.room }
    ensures { OnOk result (IsRead walk.old (reads_from 0 walk.old.state.clients) walk.new) }
{
    for client in 0..walk.clients() {
        walk.read_client(client)?;
    }
    walk.read_last()
}

// The schedule of a session that is quiet, with reads of everybody behind it.
fn end_quiet(mut walk: Walk) -> Result<Schedule, AllocError>
    requires quiet { IsQuiet walk.state }
    requires room { length walk.recorded.instrs + suc (length walk.state.clients) ≤ INSTR_LIMIT }
    ensures begins { IfOk result (λ s. BeginsAs walk.recorded s) }
    ensures whole { IfOk result (λ s. IsWhole s) }
    ensures ends { IfOk result (λ s. EndsRead (length walk.recorded.instrs) s) }
{
    walk.open_up();
    read_all(&mut walk)?;
    Ok(walk.finish())
}

/// The session of a seed: of the shape's clients, present ones and start text, with as many instructions as it asks for. Each of them is
/// performed; unless the shape is open all is quiet then, and reads of each joined client and of the server follow. Where there would be no
/// room for these below 100,000, fewer instructions are made. `Err` where a growth was refused.
pub fn generate(alloc: Global, seed: u64, shape: &Shape) -> Result<Schedule, AllocError>
    ensures { IfOk result (λ s. IsGenerated shape.now s) }
{
    let walk = wandered(alloc, seed, shape)?;
    if shape.is_open {
        Ok(walk.finish())
    } else {
        end_quiet(walk)
    }
}
