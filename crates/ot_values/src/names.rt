//! Names of refusals and of states.

ghost use Rattle.std.specs.Prelude.{◌≡◌};
ghost use Rattle.ot_values.specs.Values.{phase_word, refusal_text};

use ot_machine::Phase;
use ot_model::Refusal;

/// A refusal as it is printed.
pub fn refusal_name(refusal: Refusal) -> &'static str
    ensures { result.now ≡ refusal_text refusal }
{
    match refusal {
        Refusal::NoSuchClient => "NoSuchClient",
        Refusal::StepsFull => "StepsFull",
        Refusal::NotJoined => "NotJoined",
        Refusal::AlreadyJoined => "AlreadyJoined",
        Refusal::BadBase => "BadBase",
        Refusal::ClientFull => "ClientFull",
        Refusal::LinkEmpty => "LinkEmpty",
        Refusal::WrongHead => "WrongHead",
        Refusal::Memory => "Memory",
    }
}

/// A client's state as it is printed.
pub fn phase_name(phase: Phase) -> &'static str
    ensures { result.now ≡ phase_word phase }
{
    match phase {
        Phase::NotJoined => "not-joined",
        Phase::Synchronized => "synchronized",
        Phase::AwaitingConfirm => "awaiting-confirm",
        Phase::AwaitingWithBuffer => "awaiting-with-buffer",
    }
}
