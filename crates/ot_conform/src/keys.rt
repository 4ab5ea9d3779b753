//! What a port says under the keys of a line.

ghost use Rattle.std.specs.Prelude.{◌≡◌, option_map};
ghost use Rattle.serde_json.specs.View.{view};
ghost use Rattle.ot_conform.specs.Keys.{found_at, is_part, is_told};

use ot_steps::{Key, key_text};
use serde_json::Value;

/// The keys that say which line it is, in the order in which they are compared. Behind them the message is.
pub const FIRST_KEYS: [Key; 6] = [
    Key::At,
    Key::Clients,
    Key::Present,
    Key::Start,
    Key::Do,
    Key::Client,
];

/// The other keys in the order in which they are compared, behind the message.
pub const OTHER_KEYS: [Key; 12] = [
    Key::Edit,
    Key::Revision,
    Key::State,
    Key::Outstanding,
    Key::Buffer,
    Key::Sent,
    Key::SentRevision,
    Key::SentOperation,
    Key::Applied,
    Key::Appended,
    Key::Document,
    Key::End,
];

// Whether it is a part of the message under `sent`.
fn is_part(key: Key) -> bool
    ensures { result ≡ is_part key }
{
    matches!(key, Key::SentRevision | Key::SentOperation)
}

/// What a port's line says under a key, where it is printed.
pub fn found(line: &Value, key: Key) -> Option<&Value>
    ensures { option_map (λ v. view v.now) result ≡ found_at key (view line.now) }
{
    if is_part(key) {
        return line.get("sent")?.get(key_text(key));
    }
    line.get(key_text(key))
}

/// Whether a line says something under a key; `null` says that there is none.
pub(crate) fn tells(line: &Value, key: Key) -> bool
    ensures { result ≡ is_told (found_at key (view line.now)) }
{
    match found(line, key) {
        Some(value) => !value.is_null(),
        None => false,
    }
}
