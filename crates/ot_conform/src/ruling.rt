//! What the rules of ot.js say of the first difference.

ghost use Rattle.std.specs.Prelude.{IfOk, option_map};
ghost use Rattle.ot_rules.specs.Explained.{explained_value};
ghost use Rattle.ot_conform.specs.Ruled.{AreRules};

use crate::answers::Difference;
use crate::meeting::Field;
use ot_isa::Schedule;
use ot_rules::{Difference as Asked, Explained, explain};
use ot_steps::Key;
use std::alloc::{AllocError, Global};

/// What the rules of ot.js say of a difference in the schedule's run: the rule, what it is given, and the first note that is true. None
/// where no instruction was performed, and of a message. Out of memory comes from the run up to there, or from what is said.
pub(crate) fn rules_of(
    alloc: Global,
    schedule: &Schedule,
    difference: &Difference,
) -> Result<Option<Explained>, AllocError>
    ensures { IfOk result (λ said. AreRules schedule.now difference.now.number difference.now.field difference.now (option_map explained_value said)) }
{
    let Some(number) = difference.number else {
        return Ok(None);
    };
    let key = match difference.field {
        Field::Message => return Ok(None),
        Field::Line => None,
        Field::Stopped => Some(Key::Stopped),
        Field::Key(key) => Some(key),
    };
    let asked = Asked {
        key,
        found: difference.found.as_str(),
        wanted: difference.wanted.as_str(),
        printed: difference.tells_operation,
    };
    explain(alloc, schedule, number, asked)
}
