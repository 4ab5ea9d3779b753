//! Documents in spans of one author, as JSON.

ghost use Rattle.std.specs.Prelude.{◌≡◌, [], IfOk, OnOk, string_bytes};
ghost use Rattle.ot_report.specs.Authors as spans;
ghost use Rattle.ot_report.specs.Authors.{author_in, same_author, spans_of, with_spans, SpansSpell};
ghost use Rattle.ot_values.specs.Items.{with_item};

use crate::authors::{Author, Authors};
use ot_isa::Tagged;
use ot_text::Doc;
use ot_values::push_item;
use std::alloc::{AllocError, Global};

/// Characters of one author that stand side by side: how many, and the author, none of the start text.
#[derive(Clone, Copy, Debug, PartialEq, Eq)]
pub struct Span {
    pub count: usize,
    pub author: Option<Author>,
}

// Whether the two are one edit, or both none.
fn same_author(a: Option<Author>, b: Option<Author>) -> bool
    ensures { result ≡ same_author a b }
{
    match (a, b) {
        (None, None) => true,
        (Some(a), Some(b)) => a.client == b.client && a.instruction == b.instruction,
        _ => false,
    }
}

// The client and the instruction, each behind a comma.
fn author_json(alloc: Global, author: Option<Author>) -> Result<String, AllocError>
    ensures { IfOk result (λ s. string_bytes s ≡ spans.author_json author) }
{
    match author {
        None => Ok(String::new(alloc)),
        Some(
            Author {
                client,
                instruction,
            },
        ) => format!(in alloc; ",{client},{instruction}"),
    }
}

// Adds a span as an item.
fn push_span(alloc: Global, items: &mut String, span: Span) -> Result<(), AllocError>
    ensures { OnOk result (string_bytes items.new ≡ with_item (string_bytes items.old) (spans.span_json span)) }
{
    let count = span.count;
    let author = author_json(alloc, span.author)?;
    let item = format!(in alloc; "[{count}{author}]")?;
    push_item(items, item.as_str())
}

// The spans as items.
fn span_items(alloc: Global, authors: &Authors, list: &[Tagged]) -> Result<String, AllocError>
    ensures { IfOk result (λ s. string_bytes s ≡ with_spans [] (spans_of (spans.authors (author_in authors.now) list.now))) }
{
    let mut items = String::new(alloc);
    let Some(first) = list.first() else {
        return Ok(items);
    };
    let mut span = Span {
        count: 0,
        author: authors.author(first.tag),
    };
    for item in list {
        let author = authors.author(item.tag);
        if same_author(author, span.author) {
            span.count += 1;
        } else {
            push_span(alloc, &mut items, span)?;
            span = Span { count: 1, author };
        }
    }
    push_span(alloc, &mut items, span)?;
    Ok(items)
}

/// The member `by` of a document, behind a comma: its spans, each as `[count,client,instruction]`, or `[count]` of the start text.
pub(crate) fn by_json(
    alloc: Global,
    authors: &Authors,
    list: &Doc<Tagged>,
) -> Result<String, AllocError>
    ensures { IfOk result (λ s. string_bytes s ≡ spans.by_json (spans.authors (author_in authors.now) list.now)) }
{
    let list = list.to_vec()?;
    let items = span_items(alloc, authors, list.as_slice())?;
    format!(in alloc; ",\"by\":[{items}]")
}

/// Each span of a document has so many characters of its author: spelled out, the spans are the authors of the characters, one by one.
pub fn spans_spell()
    ensures { SpansSpell }
{}
