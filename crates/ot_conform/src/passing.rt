//! Which lines that are due a port's line passes over, where the port has lines for some instructions alone.

ghost use Rattle.std.specs.Prelude.{◌≡◌, ◌||◌};
ghost use Rattle.serde_json.specs.View.{view};
ghost use Rattle.ot_conform.specs.Passed.{is_end, is_stop, passes_step, passes_stop};
ghost use Rattle.ot_conform.specs.Read.{read_as};

use crate::keys::tells;
use crate::lines::PortLine;
use ot_json::number_at;
use ot_steps::Key;
use serde_json::Value;

// Whether a line says that an instruction was refused, or that all is over.
fn is_last(line: &Value) -> bool
    ensures { result ≡ (is_stop (view line.now) || is_end (view line.now)) }
{
    tells(line, Key::Stopped) || tells(line, Key::End)
}

/// Whether a port's line passes over that of the instruction that leads to this place: its own place is a later one, or it is this one and
/// the line says `stopped` or `end`.
pub(crate) fn passes_step(line: &PortLine<'_>, at: usize) -> bool
    ensures { result ≡ passes_step at (read_as line.now) }
{
    let PortLine::Told(line) = line else {
        return false;
    };
    match number_at(line, "at") {
        Some(place) => (at as u64) < place || (place == at as u64 && is_last(line)),
        None => false,
    }
}

/// Whether it passes over that of the instruction that is refused at this place: it has this place and says `end`.
pub(crate) fn passes_stop(line: &PortLine<'_>, at: usize) -> bool
    ensures { result ≡ passes_stop at (read_as line.now) }
{
    match line {
        PortLine::Told(line) => number_at(line, "at") == Some(at as u64) && tells(line, Key::End),
        _ => false,
    }
}
