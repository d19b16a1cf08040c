//! Reserved words where one has to be (XCU 2.4).
ghost use Rattle.std.specs.Prelude.{◌-◌, ◌≡◌, ◌<◌, ◌≤◌, length};
ghost use Rattle.sh_grammar.specs.Nests.{Nests};
ghost use Rattle.sh_grammar.specs.Phrases.{Expects, ListBefore, behind_reserved, entered, reserved_text};
ghost use Rattle.sh_grammar.specs.States.{Stands};
ghost use Rattle.sh_grammar.specs.Readers.{Answers};
ghost use Rattle.sh_tree.specs.declared.token.command.Stage.TheVariants.{First};
ghost use Rattle.sh_tree.specs.standard.language.Commands as tokens;

use super::compounds::is_same;
use super::grammar::Grammar;
use super::state::Cursor;
use sh_tree::{Lead, MAX_NESTING, MAX_SCRIPT, Refusal, Reserved, Script, Stage};
use std::alloc::Global;

/// How many bytes the word has.
fn width(reserved: Reserved) -> u32
    ensures value { result ≡ length (reserved_text reserved) }
    ensures some { 0 < result }
    ensures small { result ≤ 5 }
{
    match reserved {
        Reserved::Bang | Reserved::LeftBrace | Reserved::RightBrace => 1,
        Reserved::Do | Reserved::Fi | Reserved::If | Reserved::In => 2,
        Reserved::For => 3,
        Reserved::Case
        | Reserved::Done
        | Reserved::Elif
        | Reserved::Else
        | Reserved::Esac
        | Reserved::Then => 4,
        Reserved::Until | Reserved::While => 5,
    }
}

/// After the reserved word that is here.
#[tactic(auto, using(crate::proofs::ReservedLemmas::reserved_inside))]
pub fn skip(script: &[u8], reserved: Reserved, from: Cursor) -> Cursor
    requires small { length script.now ≤ MAX_SCRIPT }
    requires stands { Stands script.now from }
    requires word { tokens.lead_at script.now First from.at ≡ Lead.Reserved reserved }
    ensures value { result ≡ behind_reserved script.now reserved from }
    ensures further { from.at < result.at }
    ensures stands { Stands script.now result }
{
    from.next(script, width(reserved))
}

/// One level inside, after the reserved word that is here.
pub fn enter(script: &[u8], reserved: Reserved, from: Cursor) -> Cursor
    requires small { length script.now ≤ MAX_SCRIPT }
    requires stands { Stands script.now from }
    requires word { Lead.Reserved reserved ≡ tokens.lead_at script.now First from.at }
    requires shallow { from.depth < MAX_NESTING }
    ensures value { result ≡ entered script.now reserved from }
    ensures further { from.at < result.at }
    ensures stands { Stands script.now result }
{
    skip(script, reserved, from).lower()
}

/// After the reserved word, which has to be here.
pub fn expect(script: &[u8], reserved: Reserved, from: Cursor) -> Result<Cursor, Refusal>
    requires small { length script.now ≤ MAX_SCRIPT }
    requires stands { Stands script.now from }
    ensures { Expects script.now reserved from result }
{
    let lead = from.lead(script, Stage::First);
    if is_same(lead, Lead::Reserved(reserved)) {
        return Ok(skip(script, reserved, from));
    }
    Err(from.unexpected(script))
}

impl<F: Fn(Global, &[u8], Cursor) -> Result<(Script, Cursor), Refusal>> Grammar<F> {
    /// A list and the reserved word after it.
    #[tactic(auto, using(crate::proofs::LoopLemmas::before_refused, crate::proofs::LoopLemmas::before_none, crate::proofs::LoopLemmas::before_read, crate::proofs::ReaderLemmas::refused_none))]
    #[inline(always)]
    pub fn list_before(
        &self,
        script: &[u8],
        reserved: Reserved,
        from: Cursor,
    ) -> Result<(Script, Cursor), Refusal>
        requires small { length script.now ≤ MAX_SCRIPT }
        requires stands { Stands script.now from }
        requires further { length script.now - from.at < self.now.left }
        requires nests { Nests self.now.left (F.pre self.now.nested) (F.post self.now.nested) }
        ensures { Answers script.now (ListBefore script.now reserved from) from.at result }
    {
        let (list, behind) = self.list(script, from)?;
        let end = expect(script, reserved, behind)?;
        Ok((list, end))
    }
}
