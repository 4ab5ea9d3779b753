//! The answer as a value: of it the words and the JSON are made.

ghost use Rattle.std.specs.Prelude.{IfOk, option_map};
ghost use Rattle.ot_rules.specs.Explained.{explained_value};
ghost use Rattle.ot_conform.specs.Ruled.{AreVerdictRules, IsAnswer, answer_value};

use crate::comparison::Verdict;
use crate::reading::Compared;
use crate::ruling::rules_of;
use ot_isa::Schedule;
use ot_rules::Explained;
use std::alloc::{AllocError, Global};

/// What is answered of a comparison: what came of it, and of a difference what the rules of ot.js say.
#[derive(Drop)]
pub struct Answer {
    pub compared: Compared,
    pub explained: Option<Explained>,
}

// What the rules say of a verdict.
fn explain_verdict(
    alloc: Global,
    schedule: &Schedule,
    verdict: &Verdict,
) -> Result<Option<Explained>, AllocError>
    ensures { IfOk result (λ said. AreVerdictRules schedule.now verdict.now (option_map explained_value said)) }
{
    match verdict {
        Verdict::Differs(difference) => rules_of(alloc, schedule, difference),
        _ => Ok(None),
    }
}

/// The answer of a comparison with the schedule's run. For the rules the schedule is run again up to the difference. Out of memory comes from
/// there.
pub fn answer_of(
    alloc: Global,
    schedule: &Schedule,
    compared: Compared,
) -> Result<Answer, AllocError>
    ensures { IfOk result (λ a. IsAnswer schedule.now compared (answer_value a)) }
{
    let explained = explain_verdict(alloc, schedule, &compared.verdict)?;
    Ok(Answer {
        compared,
        explained,
    })
}
