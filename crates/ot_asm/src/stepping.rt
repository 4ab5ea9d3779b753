//! What one line does.

ghost use Rattle.std.specs.Prelude.{◌≡◌, ◌≢◌, ◌⊎◌, Ok, Err, IfErr, OnOk, IsErrOf};
ghost use Rattle.ot_asm.specs.Stepping.{line_step, counted_line, now_drafted, HidesOnlyJson};
ghost use Rattle.ot_asm.specs.Words.{trimmed, keyword_of, first_word};

use crate::body::Body;
use crate::fault::{AsmFault, Kind};
use crate::json_text::read_text;
use crate::keyword::{Keyword, read_keyword};
use crate::words::{split_word, trimmed};
use std::alloc::Global;

/// A line that counts.
fn counted_line(alloc: Global, body: &mut Option<Body>, line: &[u8]) -> Result<(), Kind>
    ensures ok { OnOk result (now_drafted (counted_line body.old line.now) ≡ Ok body.new) }
    ensures err { IfErr result (λ k. (k ≡ Kind.Memory) ⊎ (counted_line body.old line.now ≡ Err k)) }
    ensures memory { IsErrOf result Kind.Memory → HidesOnlyJson (keyword_of (first_word line.now)) (counted_line body.old line.now) }
    ensures other { IfErr result (λ k. k ≢ Kind.ReadFault) }
{
    let (word, rest) = split_word(line);
    let keyword = read_keyword(word);
    match body {
        Some(draft) => draft.keyword_line(alloc, keyword, rest),
        None => match keyword {
            Keyword::Clients => {
                let draft = Body::from_clients(alloc, rest)?;
                *body = Some(draft);
                Ok(())
            }
            _ => Err(Kind::NoClients),
        },
    }
}

#[tactic(auto, unfolding(crate::specs::Stepping::line_step))]
/// What a line makes of the schedule so far.
fn line_step(alloc: Global, body: &mut Option<Body>, line: &[u8]) -> Result<(), Kind>
    ensures ok { OnOk result (line_step body.old line.now ≡ Ok body.new) }
    ensures err { IfErr result (λ k. (k ≡ Kind.Memory) ⊎ (line_step body.old line.now ≡ Err k)) }
    ensures memory { IsErrOf result Kind.Memory → HidesOnlyJson (keyword_of (first_word (trimmed line.now))) (line_step body.old line.now) }
    ensures other { IfErr result (λ k. k ≢ Kind.ReadFault) }
{
    if read_text(line).is_none() {
        return Err(Kind::BadText);
    }
    let counted = trimmed(line);
    if counted.is_empty() {
        return Ok(());
    }
    if counted[0] == b';' {
        return Ok(());
    }
    counted_line(alloc, body, counted)
}

/// What the line of that number makes of the schedule so far.
pub fn numbered_step(
    alloc: Global,
    body: &mut Option<Body>,
    line: &[u8],
    number: u64,
) -> Result<(), AsmFault>
    ensures ok { OnOk result (line_step body.old line.now ≡ Ok body.new) }
    ensures number { IfErr result (λ f. f.line ≡ number) }
    ensures err { IfErr result (λ f. (f.kind ≡ Kind.Memory) ⊎ (line_step body.old line.now ≡ Err f.kind)) }
    ensures other { IfErr result (λ f. f.kind ≢ Kind.ReadFault) }
    ensures memory { IfErr result (λ f. f.kind ≡ Kind.Memory → HidesOnlyJson (keyword_of (first_word (trimmed line.now))) (line_step body.old line.now)) }
{
    match line_step(alloc, body, line) {
        Ok(()) => Ok(()),
        Err(kind) => Err(AsmFault { line: number, kind }),
    }
}
