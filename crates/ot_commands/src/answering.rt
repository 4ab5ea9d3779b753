//! The answer of `conform`, in words or as one line of JSON.

ghost use Rattle.std.specs.Prelude.{◌≡◌, ◌++◌, IfOk, OnOk, option_map, string_bytes, vec_items};
ghost use Rattle.std.specs.Str.{is_utf8};
ghost use Rattle.streams.specs.Lines.{lines_of};
ghost use Rattle.ot_conform.specs.Ruled.{answer_value};
ghost use Rattle.ot_commands.specs.Answered.{IsTold, answer_json, answer_members, answer_text, answer_words, cut_member, instruction_at, line_member, name_member, owner_name, session_value, verdict_name, with_names, words_member};

use ot_asm::{Comments, named, push_cut, read_text};
use ot_conform::{
    Answer, Compared, Owner, Verdict, answer_of, number_member, object, print_unknown,
    print_verdict, text_member, unknown_member, verdict_members,
};
use ot_explain::places;
use ot_isa::Schedule;
use std::alloc::{AllocError, Global};

/// A schedule as it was read: its lines, what their comments tell, and what they spell.
#[derive(Clone, Copy)]
pub(crate) struct Session<'a> {
    pub text: &'a [u8],
    pub comments: &'a Comments,
    pub schedule: &'a Schedule,
}

// The lines of a verdict: of a difference with the clients' names. In the others a number behind `client` is a count.
fn with_names(
    alloc: Global,
    comments: &Comments,
    verdict: &Verdict,
    text: &[u8],
) -> Result<Vec<u8>, AllocError>
    ensures { IfOk result (λ v. v.items ≡ with_names comments.now verdict.now text.now) }
{
    if let Verdict::Differs(_) = verdict {
        return named(alloc, text, comments);
    }
    let mut bytes = Vec::new(alloc);
    bytes.extend_from_slice(text)?;
    Ok(bytes)
}

/// These lines, behind them the unknown keys, and what tells of the cut.
pub(crate) fn answer_words(
    alloc: Global,
    comments: &Comments,
    answer: &Answer,
) -> Result<Vec<u8>, AllocError>
    ensures { IfOk result (λ v. v.items ≡ answer_words comments.now (answer_value answer.now)) }
{
    let text = print_verdict(alloc, answer)?;
    let mut bytes = with_names(alloc, comments, &answer.compared.verdict, text.as_bytes())?;
    let unknown = print_unknown(alloc, answer.compared.unknown.as_slice())?;
    bytes.extend_from_slice(unknown.as_bytes())?;
    push_cut(&mut bytes, comments)?;
    Ok(bytes)
}

// The number of the instruction that a verdict is about.
fn instruction_at(verdict: &Verdict) -> Option<usize>
    ensures { result ≡ instruction_at verdict.now }
{
    match verdict {
        Verdict::Conforms(_) => None,
        Verdict::Differs(difference) => difference.instruction,
        Verdict::Stopped { place, .. } => Some(*place),
    }
}

// The line at which the instruction stands, where the instructions have these.
fn line_member(
    alloc: Global,
    places: &[u64],
    instruction: Option<usize>,
) -> Result<String, AllocError>
    ensures { IfOk result (λ s. string_bytes s ≡ line_member places.now instruction) }
{
    let Some(instruction) = instruction else {
        return Ok(String::new(alloc));
    };
    let line = match places.get(instruction) {
        Some(line) => *line,
        None => 0,
    };
    number_member(alloc, "line", line)
}

/// Words of a comment, or of a schedule, which are UTF-8.
pub(crate) fn words_member(alloc: Global, name: &str, words: &[u8]) -> Result<String, AllocError>
    ensures { IfOk result (λ s. string_bytes s ≡ words_member name.now words.now) }
{
    match read_text(words) {
        Some(text) => text_member(alloc, name, text),
        None => text_member(alloc, name, ""),
    }
}

fn name_member(alloc: Global, name: &[u8]) -> Result<String, AllocError>
    ensures { IfOk result (λ s. string_bytes s ≡ name_member name.now) }
{
    if name.is_empty() {
        return Ok(String::new(alloc));
    }
    words_member(alloc, "name", name)
}

fn owner_name(comments: &Comments, owner: Owner) -> &[u8]
    ensures { result.now ≡ owner_name comments.now owner }
{
    match owner {
        Owner::Client(client) => comments.name(client as u32),
        _ => &[],
    }
}

// The name of the client whose value differs; empty where none does, or it has none.
fn verdict_name<'a>(comments: &'a Comments, verdict: &Verdict) -> &'a [u8]
    ensures { result.now ≡ verdict_name comments.entry.now verdict.now }
{
    match verdict {
        Verdict::Differs(difference) => owner_name(comments, difference.owner),
        _ => &[],
    }
}

fn cut_member(alloc: Global, comments: &Comments) -> Result<String, AllocError>
    ensures { IfOk result (λ s. string_bytes s ≡ cut_member comments.now.cut) }
{
    match comments.cut() {
        Some(words) => words_member(alloc, "cut", words),
        None => Ok(String::new(alloc)),
    }
}

/// The members of the object, of a schedule whose instructions stand at these lines.
pub(crate) fn answer_members(
    alloc: Global,
    places: &[u64],
    comments: &Comments,
    answer: &Answer,
) -> Result<String, AllocError>
    ensures { IfOk result (λ s. string_bytes s ≡ answer_members places.now comments.now (answer_value answer.now)) }
{
    let verdict = &answer.compared.verdict;
    let mut members = verdict_members(alloc, answer)?;
    let line = line_member(alloc, places, instruction_at(verdict))?;
    let name = name_member(alloc, verdict_name(comments, verdict))?;
    let unknown = unknown_member(alloc, answer.compared.unknown.as_slice())?;
    let cut = cut_member(alloc, comments)?;
    members.push_str(line.as_str())?;
    members.push_str(name.as_str())?;
    members.push_str(unknown.as_str())?;
    members.push_str(cut.as_str())?;
    Ok(members)
}

// The line of JSON.
fn answer_json(alloc: Global, session: &Session<'_>, answer: &Answer) -> Result<Vec<u8>, AllocError>
    ensures { IfOk result (λ v. v.items ≡ answer_json (lines_of session.now.text.now) session.now.comments.now (answer_value answer.now)) }
{
    let places = places(alloc, session.text)?;
    let members = answer_members(alloc, places.as_slice(), session.comments, answer)?;
    let line = object(alloc, members.as_str())?;
    let mut bytes = Vec::from_slice(alloc, line.as_bytes())?;
    bytes.push(b'\n')?;
    Ok(bytes)
}

/// What is answered of a comparison with the session's run: words, or a line of JSON. Out of memory comes from the rules' run, or from the
/// text.
pub(crate) fn answer_text(
    alloc: Global,
    json: bool,
    session: &Session<'_>,
    compared: Compared,
) -> Result<Vec<u8>, AllocError>
    ensures { IfOk result (λ v. IsTold json (session_value session.now) compared v.items) }
{
    let answer = answer_of(alloc, session.schedule, compared)?;
    if json {
        answer_json(alloc, session, &answer)
    } else {
        answer_words(alloc, session.comments, &answer)
    }
}
