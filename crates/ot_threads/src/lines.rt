//! Faults as they are printed.

ghost use Rattle.std.specs.Prelude.{◌≡◌};
ghost use Rattle.ot_threads.specs.Threaded.{audit_fault, threads_fault, work_fault};

use crate::fault::ThreadsFault;
use ot_board::AuditFault;
use ot_workers::WorkFault;

fn work_line(fault: WorkFault) -> &'static str
    ensures { result.now ≡ work_fault fault }
{
    match fault {
        WorkFault::RecordFull => "otbench: RecordFull\n",
        WorkFault::Stopped => "otbench: Stopped\n",
        WorkFault::Memory => "otbench: Memory\n",
        WorkFault::Refused => "otbench: Refused\n",
    }
}

fn audit_line(fault: AuditFault) -> &'static str
    ensures { result.now ≡ audit_fault fault }
{
    match fault {
        AuditFault::Missing(_, _) => "otbench: Missing\n",
        AuditFault::Backwards(_, _) => "otbench: Backwards\n",
        AuditFault::Doubled(_) => "otbench: Doubled\n",
        AuditFault::Uncovered(_) => "otbench: Uncovered\n",
        AuditFault::Memory => "otbench: Memory\n",
    }
}

/// The line of a fault of what workers left.
pub fn threads_line(fault: ThreadsFault) -> &'static str
    ensures { result.now ≡ threads_fault fault }
{
    match fault {
        ThreadsFault::Work(fault) => work_line(fault),
        ThreadsFault::StillOut(_) => "otbench: StillOut\n",
        ThreadsFault::Audit(fault) => audit_line(fault),
        ThreadsFault::NotPlan => "otbench: NotPlan\n",
        ThreadsFault::Memory => "otbench: Memory\n",
    }
}
