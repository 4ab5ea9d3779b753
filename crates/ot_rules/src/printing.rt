//! A call by its name, what it is given, and both as lines.

ghost use Rattle.std.specs.Prelude.{◌≡◌, ◌∷◌, ◌++◌, [], IfOk, OnOk, option_map, string_bytes};
ghost use Rattle.ot_rules.specs.Explained.{explained_text, explained_value, note_row};
ghost use Rattle.ot_rules.specs.Call.{call_value};
ghost use Rattle.ot_rules.specs.Text as text;

use crate::call::{Call, Operation, Pending};
use crate::explaining::Explained;
use ot_json::write_op;
use std::alloc::{AllocError, Global};

/// The method's name, as ot.js has it: of a client's state, or of the server.
pub fn rule(call: &Call) -> &'static str
    ensures { result.now ≡ text.rule_text (call_value call.now) }
{
    match call {
        Call::ApplyClient(Pending::Nothing, _) => "Synchronized.applyClient",
        Call::ApplyClient(Pending::Outstanding(_), _) => "AwaitingConfirm.applyClient",
        Call::ApplyClient(Pending::Buffered(..), _) => "AwaitingWithBuffer.applyClient",
        Call::ApplyServer(Pending::Nothing, _) => "Synchronized.applyServer",
        Call::ApplyServer(Pending::Outstanding(_), _) => "AwaitingConfirm.applyServer",
        Call::ApplyServer(Pending::Buffered(..), _) => "AwaitingWithBuffer.applyServer",
        Call::ServerAck(_, Pending::Nothing) => "Synchronized.serverAck",
        Call::ServerAck(_, Pending::Outstanding(_)) => "AwaitingConfirm.serverAck",
        Call::ServerAck(_, Pending::Buffered(..)) => "AwaitingWithBuffer.serverAck",
        Call::ReceiveOperation(..) => "Server.receiveOperation",
    }
}

/// A value that a method is given.
#[derive(Drop)]
pub struct Given {
    /// `revision`, `outstanding`, `buffer`, `operation` or `concurrent`.
    pub name: &'static str,
    /// An operation as ot.js' `toJSON` has it, as compact JSON; or a number.
    pub value: String,
}

fn push_operation(
    alloc: Global,
    given: &mut Vec<Given>,
    name: &'static str,
    op: &Operation,
) -> Result<(), AllocError>
    ensures { OnOk result (text.given_values given.new.items ≡ text.given_values given.old.items ++ text.given_operation name.now op.now ∷ []) }
{
    let value = write_op(alloc, op)?;
    given.push(Given { name, value })?;
    Ok(())
}

fn push_revision(alloc: Global, given: &mut Vec<Given>, revision: u32) -> Result<(), AllocError>
    ensures { OnOk result (text.given_values given.new.items ≡ text.given_values given.old.items ++ text.given_revision revision ∷ []) }
{
    let value = format!(in alloc; "{revision}")?;
    given.push(Given {
        name: "revision",
        value,
    })?;
    Ok(())
}

fn push_pending(alloc: Global, given: &mut Vec<Given>, pending: &Pending) -> Result<(), AllocError>
    ensures { OnOk result (text.given_values given.new.items ≡ text.given_values given.old.items ++ text.given_pending pending.now) }
{
    match pending {
        Pending::Nothing => Ok(()),
        Pending::Outstanding(op) => push_operation(alloc, given, "outstanding", op),
        Pending::Buffered(op, buffer) => {
            push_operation(alloc, given, "outstanding", op)?;
            push_operation(alloc, given, "buffer", buffer)?;
            Ok(())
        }
    }
}

fn push_concurrent(
    alloc: Global,
    given: &mut Vec<Given>,
    operations: &[Operation],
) -> Result<(), AllocError>
    ensures { OnOk result (text.given_values given.new.items ≡ text.given_values given.old.items ++ text.given_concurrent operations.now) }
{
    for op in operations {
        push_operation(alloc, given, "concurrent", op)?;
    }
    Ok(())
}

fn push_operand(
    alloc: Global,
    given: &mut Vec<Given>,
    pending: &Pending,
    op: &Operation,
) -> Result<(), AllocError>
    ensures { OnOk result (text.given_values given.new.items ≡ text.given_values given.old.items ++ text.given_operand pending.now op.now) }
{
    push_pending(alloc, given, pending)?;
    push_operation(alloc, given, "operation", op)
}

/// What the method is given, in the order in which it is printed: the revision, the pending operations, the operation, and each concurrent
/// operation of the log in turn. `Err` is out of memory.
pub fn given_of(alloc: Global, call: &Call) -> Result<Vec<Given>, AllocError>
    ensures { IfOk result (λ given. text.given_values given.items ≡ text.given_of (call_value call.now)) }
{
    let mut given = Vec::new(alloc);
    match call {
        Call::ApplyClient(pending, op) => push_operand(alloc, &mut given, pending, op)?,
        Call::ApplyServer(pending, op) => push_operand(alloc, &mut given, pending, op)?,
        Call::ServerAck(revision, pending) => {
            push_revision(alloc, &mut given, *revision)?;
            push_pending(alloc, &mut given, pending)?;
        }
        Call::ReceiveOperation(revision, op, concurrent) => {
            push_revision(alloc, &mut given, *revision)?;
            push_operation(alloc, &mut given, "operation", op)?;
            push_concurrent(alloc, &mut given, concurrent.as_slice())?;
        }
    }
    Ok(given)
}

fn given_row(alloc: Global, given: &Given) -> Result<String, AllocError>
    ensures { IfOk result (λ s. string_bytes s ≡ text.given_row (text.given_value given.now)) }
{
    let name = given.name;
    let value = given.value.as_str();
    format!(in alloc; "given {name} {value}\n")
}

fn given_rows(alloc: Global, given: &[Given]) -> Result<String, AllocError>
    ensures { IfOk result (λ s. string_bytes s ≡ text.given_rows (text.given_values given.now)) }
{
    let mut rows = String::new(alloc);
    for value in given {
        let row = given_row(alloc, value)?;
        rows.push_str(row.as_str())?;
    }
    Ok(rows)
}

fn note_row(alloc: Global, note: Option<&'static str>) -> Result<String, AllocError>
    ensures { IfOk result (λ s. string_bytes s ≡ note_row (option_map (λ t. t.now) note.entry)) }
{
    match note {
        Some(note) => format!(in alloc; "note {note}\n"),
        None => Ok(String::new(alloc)),
    }
}

/// The line `rule R`, a line `given NAME V` for each thing that the method is given, and a line `note TEXT` where a note is true; empty where
/// nothing is said.
pub fn print_explained(alloc: Global, explained: &Option<Explained>) -> Result<String, AllocError>
    ensures { IfOk result (λ s. string_bytes s ≡ explained_text (option_map explained_value explained.now)) }
{
    let Some(explained) = explained else {
        return Ok(String::new(alloc));
    };
    let rule = explained.rule;
    let given = given_rows(alloc, explained.given.as_slice())?;
    let note = note_row(alloc, explained.note)?;
    format!(in alloc; "rule {rule}\n{given}{note}")
}
