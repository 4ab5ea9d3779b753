//! Writing an image, field by field.

ghost use Rattle.std.specs.Prelude.{◌≡◌, ◌<◌, ◌≤◌, ◌+◌, ◌^◌, ◌∷◌, ◌++◌, length, OnOk, IfOk};
ghost use Rattle.std.specs.Int.{w16, w32, to_be_bytes};
ghost use Rattle.std.specs.List.{flat_map};
ghost use Rattle.ot_operation.specs.Run.{normal_runs};
ghost use Rattle.ot_text.specs.Components.{run_of};
ghost use Rattle.ot_image.specs.Spelling.{size_of, component, components, instruction, bytes2, IsImageOf};

use ot_isa::{Instr, Schedule};
use ot_text::{ComponentRef, TextOp};
use std::alloc::{AllocError, Global};

fn put_word(out: &mut Vec<u8>, n: usize) -> Result<(), AllocError>
    requires { n < 2 ^ 32 }
    ensures { OnOk result (out.new.items ≡ out.old.items ++ to_be_bytes w32 n) }
{
    out.extend_from_slice(&(n as u32).to_be_bytes())
}

fn put_chars(out: &mut Vec<u8>, chars: &[char]) -> Result<(), AllocError>
    ensures { OnOk result (out.new.items ≡ out.old.items ++ flat_map (to_be_bytes w32) chars.now) }
{
    for ch in chars {
        let ch = *ch;
        out.extend_from_slice(&(ch as u32).to_be_bytes())?;
    }
    Ok(())
}

fn put_component(out: &mut Vec<u8>, part: ComponentRef<'_, char>) -> Result<(), AllocError>
    requires { size_of (run_of part) < 2 ^ 32 }
    ensures { OnOk result (out.new.items ≡ out.old.items ++ component (run_of part.entry)) }
{
    match part {
        ComponentRef::Retain(count) => {
            out.push(16)?;
            put_word(out, count)
        }
        ComponentRef::Insert(text) => {
            out.push(17)?;
            put_word(out, text.len())?;
            put_chars(out, text)
        }
        ComponentRef::Delete(count) => {
            out.push(18)?;
            put_word(out, count)
        }
    }
}

fn put_op(out: &mut Vec<u8>, op: &TextOp<char>) -> Result<(), AllocError>
    ensures { OnOk result (out.new.items ≡ out.old.items ++ components (normal_runs op.now)) }
{
    put_word(out, op.component_count())?;
    for part in op.components() {
        put_component(out, part)?;
    }
    Ok(())
}

fn put_client(out: &mut Vec<u8>, code: u8, client: u16) -> Result<(), AllocError>
    ensures { OnOk result (out.new.items ≡ out.old.items ++ (code ∷ to_be_bytes w16 client)) }
{
    out.push(code)?;
    out.extend_from_slice(&client.to_be_bytes())
}

fn put_instr(out: &mut Vec<u8>, instr: &Instr) -> Result<(), AllocError>
    ensures { OnOk result (out.new.items ≡ out.old.items ++ instruction instr.now) }
{
    match instr {
        Instr::Edit(client, op) => {
            put_client(out, 1, *client)?;
            put_op(out, op)
        }
        Instr::Take(client) => put_client(out, 2, *client),
        Instr::Deliver(client) => put_client(out, 3, *client),
        Instr::Acknowledge(client) => put_client(out, 4, *client),
        Instr::Read(client) => put_client(out, 5, *client),
        Instr::ReadServer => {
            out.push(6)?;
            Ok(())
        }
        Instr::Join(client) => put_client(out, 7, *client),
    }
}

fn put_instrs(out: &mut Vec<u8>, schedule: &Schedule) -> Result<(), AllocError>
    ensures { OnOk result (out.new.items ≡ out.old.items ++ flat_map instruction schedule.now.instrs) }
{
    for place in 0..schedule.len() {
        if let Some(instr) = schedule.get(place) {
            put_instr(out, instr)?;
        }
    }
    Ok(())
}

fn written(alloc: Global, schedule: &Schedule) -> Result<Vec<u8>, AllocError>
    ensures { IfOk result (λ v. v.items ≡ bytes2 schedule.now) }
{
    let mut out = Vec::new(alloc);
    out.extend_from_slice(b"OTS2")?;
    out.extend_from_slice(&schedule.clients().to_be_bytes())?;
    out.extend_from_slice(&schedule.present().to_be_bytes())?;
    put_word(&mut out, schedule.start().len())?;
    put_chars(&mut out, schedule.start())?;
    put_word(&mut out, schedule.len())?;
    put_instrs(&mut out, schedule)?;
    Ok(out)
}

/// The image of the schedule, of the second version: magic `OTS2`, with the number of present clients. Fails only where
/// memory runs out.
pub fn encode(alloc: Global, schedule: &Schedule) -> Result<Vec<u8>, AllocError>
    ensures bytes { IfOk result (λ v. v.items ≡ bytes2 schedule.now) }
    ensures image { IfOk result (λ v. IsImageOf v.items schedule.now) }
{
    // For the proof: the invariant of every schedule.
    let _clients = schedule.clients();
    written(alloc, schedule)
}
