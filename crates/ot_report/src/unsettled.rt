//! Whether all is quiet where a run ended, or what is not settled.

ghost use Rattle.std.specs.Prelude.{◌≡◌, ◌∷◌, [], Some, IfOk, OnOk, map, slice_get};
ghost use Rattle.ot_model.specs.Table.{IsQuiet};
ghost use Rattle.ot_check.specs.Convergence.{convergence_of};
ghost use Rattle.ot_report.specs.Findings.{quiet_if_none, settling};

use ot_check::{Convergence, Unsettled, all_unsettled, convergence};
use ot_machine::Machine;
use std::alloc::{AllocError, Global};

// Each of these, as a verdict.
fn not_quiet(alloc: Global, unsettled: &[Unsettled]) -> Result<Vec<Convergence>, AllocError>
    ensures { IfOk result (λ v. v.items ≡ map Convergence.NotQuiet unsettled.now) }
{
    let mut settling = Vec::new(alloc);
    for what in unsettled {
        settling.push(Convergence::NotQuiet(*what))?;
    }
    Ok(settling)
}

// These verdicts, or that all is quiet where there is none.
fn quiet_if_none(settling: &mut Vec<Convergence>) -> Result<(), AllocError>
    ensures { OnOk result (settling.new.items ≡ quiet_if_none settling.old.items) }
{
    if !settling.is_empty() {
        return Ok(());
    }
    settling.push(Convergence::Quiet)?;
    Ok(())
}

/// Whether all is quiet with equal lists, or the first that is not settled, as [`convergence`] says; with `all` each that is not, in the
/// order of [`all_unsettled`], or `Quiet` where there is none.
pub fn settling(alloc: Global, machine: &Machine, all: bool) -> Result<Vec<Convergence>, AllocError>
    ensures exact { IfOk result (λ v. v.items ≡ settling all machine.now) }
    ensures first { IfOk result (λ v. slice_get v.items 0 ≡ Some (convergence_of machine.now)) }
    ensures quiet { IfOk result (λ v. IsQuiet machine.now → v.items ≡ Convergence.Quiet ∷ []) }
{
    if !all {
        let mut settling = Vec::new(alloc);
        settling.push(convergence(machine))?;
        return Ok(settling);
    }
    let unsettled = all_unsettled(alloc, machine)?;
    let mut settling = not_quiet(alloc, unsettled.as_slice())?;
    quiet_if_none(&mut settling)?;
    Ok(settling)
}
