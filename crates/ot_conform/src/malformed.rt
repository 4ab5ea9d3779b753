//! What is wrong with a line of a port that is no JSON object with a place.

ghost use Rattle.std.specs.Prelude.{◌≡◌, IfOk};
ghost use Rattle.std.specs.Option.{option_map};
ghost use Rattle.serde_json.specs.Read.{read};
ghost use Rattle.serde_json.specs.View.{view};
ghost use Rattle.ot_conform.specs.Answers.{form_of, malformed, malformed_sentence};
ghost use Rattle.ot_conform.specs.Read.{read_as};

use crate::lines::PortLine;
use serde_json::Value;
use std::alloc::{AllocError, Global};

/// What is wrong with a port's line.
#[derive(Clone, Copy, Debug, PartialEq, Eq)]
pub enum Malformed {
    /// It is no JSON, nested too deep, or no object.
    NoObject,
    /// It has no `at`.
    NoPlace,
    /// Its `at` is no whole number from 0 to 2^64 - 1.
    BadPlace,
}

// The value of a text, where it is JSON.
fn read(alloc: Global, text: &str) -> Result<Option<Value>, AllocError>
    ensures { IfOk result (λ value. option_map view value ≡ read text.now) }
{
    match Value::from_str(alloc, text) {
        Ok(value) => Ok(Some(value)),
        Err(error) if error.is_memory() => Err(AllocError),
        Err(_) => Ok(None),
    }
}

// What is wrong with a value that is no object with a place.
fn form_of(value: &Option<Value>) -> Malformed
    ensures { result ≡ form_of (option_map view value.now) }
{
    match value {
        Some(value) if value.is_object() => {
            if value.get("at").is_some() {
                Malformed::BadPlace
            } else {
                Malformed::NoPlace
            }
        }
        _ => Malformed::NoObject,
    }
}

/// What is wrong with a port's line, if it is a text that is no object with a place. Out of memory for reading it.
pub(crate) fn malformed_line(
    alloc: Global,
    line: &PortLine<'_>,
) -> Result<Option<Malformed>, AllocError>
    ensures { IfOk result (λ m. m ≡ malformed (read_as line.now)) }
{
    match line {
        PortLine::OtherForm(text) => {
            let value = read(alloc, text)?;
            Ok(Some(form_of(&value)))
        }
        _ => Ok(None),
    }
}

/// It as a sentence.
pub fn malformed_sentence(malformed: Malformed) -> &'static str
    ensures { result.now ≡ malformed_sentence malformed }
{
    match malformed {
        Malformed::NoObject => "the line is no JSON object",
        Malformed::NoPlace => "the line has no \"at\"",
        Malformed::BadPlace => "\"at\" is no whole number from 0 on",
    }
}
