//! What stands under the keys of JSON objects: numbers, texts and arrays, some of which may be missing.
//!
//! `specs/Fields.antt` has the same words over `serde_json`'s values as data, for the definitions of formats: a format's
//! definition is a chain of them, and its code is the same chain with `?`.

ghost use Rattle.std.specs.Prelude.{◌≡◌, option_map};
ghost use Rattle.std.specs.Str.{chars};
ghost use Rattle.serde_json.specs.Find.{get};
ghost use Rattle.serde_json.specs.View.{items_view, view};
ghost use Rattle.ot_json.specs.Fields.{items_at, items_or_none, number_at, number_or, text_or_empty};

use serde_json::Value;

/// The whole number, 0 to 2^64 - 1, under a key.
pub fn number_at(value: &Value, key: &str) -> Option<u64>
    ensures { result ≡ number_at key.now (view value.now) }
{
    value.get(key)?.as_u64()
}

/// The whole number under a key, or `otherwise` where the key is missing.
pub fn number_or(value: &Value, key: &str, otherwise: u64) -> Option<u64>
    ensures { result ≡ number_or otherwise (get key.now (view value.now)) }
{
    match value.get(key) {
        Some(under) => under.as_u64(),
        None => Some(otherwise),
    }
}

/// The text under a key, or the empty text where the key is missing.
#[tactic(auto, using(crate::proofs::Lists::no_chars))]
pub fn text_or_empty<'a>(value: &'a Value, key: &str) -> Option<&'a str>
    ensures { option_map (λ t. chars t.now) result ≡ text_or_empty (get key.now (view value.now)) }
{
    match value.get(key) {
        Some(under) => under.as_str(),
        None => Some(""),
    }
}

/// The items of the array under a key.
pub fn items_at<'a>(value: &'a Value, key: &str) -> Option<&'a [Value]>
    ensures { option_map (λ s. items_view s.now) result ≡ items_at key.now (view value.now) }
{
    let items = value.get(key)?.as_array()?;
    Some(items.as_slice())
}

/// The items of the array under a key, or none where the key is missing.
pub fn items_or_none<'a>(value: &'a Value, key: &str) -> Option<&'a [Value]>
    ensures { option_map (λ s. items_view s.now) result ≡ items_or_none (get key.now (view value.now)) }
{
    match value.get(key) {
        Some(under) => {
            let items = under.as_array()?;
            Some(items.as_slice())
        }
        None => Some(&[]),
    }
}
