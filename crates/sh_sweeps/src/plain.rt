//! Commands over which what is known is carried: utilities that leave what is known after their
//! words, and assignments alone. Nothing is lowered there yet (XCU 2.9.1).
ghost use Rattle.std.specs.Prelude.{◌≡◌, ◌∷◌, ◌<◌, ◌≤◌, ◌-◌, [], ℕ, List, true, false, length, take, drop, IfSome};
ghost use Rattle.std.specs.List.{list_all};
ghost use Rattle.sh_tree.specs.Lists.{elements_from, items_from};
ghost use Rattle.sh_tree.specs.standard.Words.{elements_of};
ghost use Rattle.sh_tree.specs.declared.tree.Command.{out-Command};
ghost use Rattle.sh_tree.specs.declared.tree.Command as tree;
ghost use Rattle.sh_tree.specs.declared.tree.Part.TheVariants as part;
ghost use Rattle.sh_runs.specs.standard.Kinds as kinds;
ghost use Rattle.sh_runs.specs.standard.runs.Environment.{is_one_of};
ghost use Rattle.sh_runs.specs.declared.kind.Kind.TheVariants as kind;
ghost use Rattle.sh_domain.specs.declared.rule.FlowRule as rule;
ghost use Rattle.sh_domain.specs.Admitted.{functions_in};
ghost use Rattle.sh_domain.specs.Entries as entries;
ghost use Rattle.sh_domain.specs.Knowledge.{knowledge_facts};
ghost use Rattle.sh_domain.specs.Table.{assignments_gains, behind_words};
ghost use Rattle.sh_domain.specs.Views.{Seen, gaining};
ghost use Rattle.sh_rules.specs.Behind.{both};
ghost use Rattle.sh_sweeps.specs.Plain.{IsAlone, IsAssigning, IsCarried, IsItemCarried, IsNamed, IsPlain, IsSimple, is_assignment, joined};
ghost use Rattle.sh_sweeps.specs.Sweeps.{AreItems, ArePassed, Knows, known_behind};
ghost use Rattle.sh_drafts.specs.Ready.{IsReady};

use crate::claims::claims_of;
use sh_domain::{Certificate, FlowRule, Knowledge};
use sh_drafts::inner::is_in_elements;
use sh_drafts::{Draft, Subject};
use sh_gains::gain_operands;
use sh_rules::elements::gain_assignments;
use sh_rules::{Course, meet};
use sh_table::{Kind as Meaning, kind_of};
use sh_tree::{Command, Element, Item, Kind, Part, Span, Word};

// The command of an item that is a command alone.
fn lone_command(item: &Item) -> Option<&Command>
    ensures { IfSome result (λ command. IsAlone item.entry.now command.now) }
{
    if item.background {
        return None;
    }
    match (item.list.first.parts.as_slice(), item.list.rest.as_slice()) {
        ([command], []) => Some(command),
        _ => None,
    }
}

// The elements of a simple command.
fn simple_elements(command: &Command) -> Option<&[Element]>
    ensures { IfSome result (λ elements. IsSimple command.entry.now elements.now) }
{
    match &command.kind {
        Kind::Simple(elements) => Some(elements.as_slice()),
        _ => None,
    }
}

// The bytes of a word that is plain bytes alone.
fn plain_bytes(word: &Word) -> Option<Span>
    ensures { IfSome result (λ span. word.now.parts ≡ part.Plain span ∷ []) }
{
    match word.parts.as_slice() {
        [Part::Plain(span)] => Some(*span),
        _ => None,
    }
}

// The command name of elements that begin with one of plain bytes.
fn plain_name(elements: &[Element]) -> Option<Span>
    ensures { IfSome result (IsNamed elements.now) }
{
    match elements {
        [Element::Word(word), ..] => plain_bytes(word),
        _ => None,
    }
}

// Whether a command of this name is a utility without a meaning of its own.
fn is_utility(subject: &Subject<'_>, name: &[u8]) -> bool
    ensures kind { result ≡ true → kinds.kind_of name.now ≡ kind.Utility }
    ensures function { result ≡ true → is_one_of (functions_in subject.now.script.now subject.now.tree.now) name.now ≡ false }
{
    matches!(kind_of(name), Meaning::Utility) && !subject.table.is_function(name)
}

// Whether the elements are a utility that leaves what is known after its words.
fn is_plain(subject: &Subject<'_>, elements: &[Element]) -> bool
    ensures { result ≡ true → (command : tree.Command) → IsSimple command elements.now → IsPlain subject.now command }
{
    match plain_name(elements) {
        Some(name) => is_utility(subject, name.text(subject.script)),
        None => false,
    }
}

#[tactic(auto, unfolding(crate::specs::Plain::is_assignment))]
fn is_assignment(element: &Element) -> bool
    ensures { result ≡ is_assignment element.now }
{
    match element {
        Element::Assignment { .. } => true,
        Element::Word(_) => false,
        Element::Redirection(_) => false,
    }
}

// Whether the elements are assignments alone.
fn are_assignments(elements: &[Element]) -> bool
    ensures { result ≡ list_all is_assignment elements.now }
{
    elements.iter().all(|element| is_assignment(element))
}

// What is known after the command name and the operands too.
fn gain_words(
    subject: &Subject<'_>,
    certificate: &Certificate,
    elements: &[Element],
    known: &mut Knowledge,
)
    requires { (probed : ℕ) × IsReady subject.now certificate.now probed }
    ensures { (q : Seen) → Knows subject.now q (knowledge_facts subject.now.names.now known.old)
        → Knows subject.now (behind_words (elements_from subject.now.script.now elements.now) q) (knowledge_facts subject.now.names.now known.new) }
{
    gain_operands(elements, subject.script, subject.names, known);
}

// What the assignments leave set too.
fn gain_values(
    subject: &Subject<'_>,
    certificate: &Certificate,
    elements: &[Element],
    known: &mut Knowledge,
)
    requires { (probed : ℕ) × IsReady subject.now certificate.now probed }
    ensures { (q : Seen) → Knows subject.now q (knowledge_facts subject.now.names.now known.old)
        → Knows subject.now (gaining (assignments_gains (elements_from subject.now.script.now elements.now)) q) (knowledge_facts subject.now.names.now known.new) }
{
    let claims = claims_of(subject, certificate);
    gain_assignments(&claims, elements, known);
}

// Goes on after a simple command, if it is plain or assignments alone. Reports whether it is.
fn carry_elements(
    subject: &Subject<'_>,
    certificate: &Certificate,
    elements: &[Element],
    known: &mut Knowledge,
) -> bool
    requires { (probed : ℕ) × IsReady subject.now certificate.now probed }
    ensures carried { result ≡ true → (command : tree.Command) → IsSimple command elements.now → IsCarried subject.now command known.old known.new }
    ensures stays { result ≡ false → known.new ≡ known.old }
{
    if is_plain(subject, elements) {
        gain_words(subject, certificate, elements, known);
        return true;
    }
    if !are_assignments(elements) {
        return false;
    }
    gain_words(subject, certificate, elements, known);
    gain_values(subject, certificate, elements, known);
    true
}

// Goes on after an item, if it is a command over which what is known is carried: a hint. It is not
// carried over a command that waits or holds others. Reports whether it goes on.
fn carry_item(subject: &Subject<'_>, draft: &Draft, item: &Item, known: &mut Knowledge) -> bool
    requires { IsReady subject.now draft.now.certificate draft.now.probe.count }
    ensures carried { result ≡ true → IsItemCarried subject.now item.now known.old known.new }
    ensures stays { result ≡ false → known.new ≡ known.old }
{
    let Some(command) = lone_command(item) else {
        return false;
    };
    let Some(elements) = simple_elements(command) else {
        return false;
    };
    if draft.waiting.has(command.number) || is_in_elements(elements) {
        return false;
    }
    carry_elements(subject, &draft.certificate, elements, known)
}

// Goes on after the items from a place on over which what is known is carried, except the last of
// the list. Gives the place of the next one.
fn carry_run(
    subject: &Subject<'_>,
    draft: &Draft,
    items: &[Item],
    place: usize,
    known: &mut Knowledge,
) -> usize
    requires ready { IsReady subject.now draft.now.certificate draft.now.probe.count }
    requires within { place < length items.now }
    requires placed { (by : rule.FlowRule) × (y : entries.Around) × AreItems subject.now by y (both (knowledge_facts subject.now.names.now known.old)) (drop place items.now) }
    ensures from { place ≤ result }
    ensures there { result < length items.now }
    ensures passed { ArePassed subject.now (joined known.old) (joined known.new) (take (result - place) (drop place items.now)) }
{
    let mut next = place;
    while next < items.len() - 1 {
        if !carry_item(subject, draft, &items[next], known) {
            return next;
        }
        next += 1;
    }
    next
}

/// Goes on after the items from a place on over which what is known is carried, whatever is claimed
/// there. Gives the place of the next one. The last item of a list is none of them, since what the
/// list leaves is read off that one.
pub fn carry_over(
    subject: &Subject<'_>,
    draft: &Draft,
    course: &mut Course,
    items: &[Item],
    place: usize,
) -> usize
    requires ready { IsReady subject.now draft.now.certificate draft.now.probe.count }
    requires within { place < length items.now }
    requires placed { (y : entries.Around) × AreItems subject.now course.old.by y (known_behind subject.now course.old.behind) (drop place items.now) }
    ensures from { place ≤ result }
    ensures there { result < length items.now }
    ensures passed { ArePassed subject.now course.old course.new (take (result - place) (drop place items.now)) }
{
    if !draft.carries() {
        return place;
    }
    let mut known = course.behind.zero;
    meet(&mut known, &course.behind.nonzero);
    let next = carry_run(subject, draft, items, place, &mut known);
    if next == place {
        return place;
    }
    course.behind.zero = known;
    course.behind.nonzero = known;
    course.by = FlowRule::F2;
    next
}
