//! A look at the actions of a plan that takes no memory.

ghost use Rattle.std.specs.Prelude.{◌≡◌, option_map};
ghost use Rattle.serde_json.specs.View.{items_view, view};
ghost use Rattle.ot_json.specs.Fields.{all_of};
ghost use Rattle.ot_plan.specs.Reading.{action_of, row_of};
ghost use Rattle.ot_plan.specs.Layout.{both, row_survey, rows_survey};

use crate::action::{action_of, char_count, is_action};
use ot_isa::INSERTED_LIMIT;
use serde_json::Value;

/// The most characters that a client's actions insert, and the most actions of a client.
const MOST_INSERTED: usize = INSERTED_LIMIT;

const MOST_ACTIONS: usize = 1_000;

/// Which limits the actions keep, for one client or for all.
#[derive(Clone, Copy)]
pub struct Survey {
    /// Each number is in range.
    pub in_range: bool,
    /// No client's insertions together are too long.
    pub short: bool,
    /// No client has too many actions.
    pub few: bool,
}

impl Survey {
    fn and(self, other: Survey) -> Survey
        ensures { result ≡ both self other }
    {
        Survey {
            in_range: self.in_range && other.in_range,
            short: self.short && other.short,
            few: self.few && other.few,
        }
    }
}

// The survey of one client's actions; none where an item is no action.
fn survey_items(items: &[Value]) -> Option<Survey>
    ensures { result ≡ option_map row_survey (all_of action_of (items_view items.now)) }
{
    let mut in_range = true;
    let mut inserted: usize = 0;
    for value in items {
        let Some(action) = action_of(value) else {
            return None;
        };
        in_range = in_range && is_action(&action);
        inserted = inserted.saturating_add(char_count(action.insert));
    }
    Some(Survey {
        in_range,
        short: inserted <= MOST_INSERTED,
        few: items.len() <= MOST_ACTIONS,
    })
}

/// The survey of what is to be one client's actions; none where it is no array of actions.
pub fn survey_row(value: &Value) -> Option<Survey>
    ensures { result ≡ option_map row_survey (row_of (view value.now)) }
{
    let items = value.as_array()?;
    survey_items(items.as_slice())
}

/// The survey of all clients' actions; none where an item is no array of actions.
pub fn survey_rows(items: &[Value]) -> Option<Survey>
    ensures { result ≡ option_map rows_survey (all_of row_of (items_view items.now)) }
{
    let mut all = Survey {
        in_range: true,
        short: true,
        few: true,
    };
    for value in items {
        let Some(row) = survey_row(value) else {
            return None;
        };
        all = all.and(row);
    }
    Some(all)
}
