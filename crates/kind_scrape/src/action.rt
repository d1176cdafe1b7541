ghost use Rattle.std.specs.Prelude.{◌≡◌, Some};
ghost use Rattle.kind_scrape.specs.Relabelings as spec;

use op_base::Text;
use op_manifest::{ShapeRule, TextForm};
use op_relabel::Action;

/// The name of an action, in any case of its letters.
pub(crate) struct ActionWord;

impl TextForm for ActionWord {
    ghost use Rattle.op_manifest.specs.declared.shape.TheConstants.ShapeRule as rule;
    ghost use Rattle.kind_scrape.specs.Relabelings as spec;

    ghost passes = { spec.is_action };

    ghost broken = { rule.BAD_CHOICE };

    fn passes(text: &str) -> bool {
        action_named(text).is_some()
    }

    fn broken() -> ShapeRule {
        ShapeRule::BAD_CHOICE
    }
}

/// The action of the word, or `replace` where none is named.
pub(crate) fn action_or_replace(word: Option<Text>) -> Action
    ensures { result ≡ spec.action_or_replace word }
{
    match word {
        Some(word) => named_or_replace(word.as_str()),
        None => Action::Replace,
    }
}

fn named_or_replace(text: &str) -> Action
    ensures { result ≡ spec.action_or_replace (Some text.now) }
{
    match action_named(text) {
        Some(action) => action,
        None => Action::Replace,
    }
}

#[tactic(auto, unfolding(crate::specs::Relabelings::action_named))]
fn action_named(text: &str) -> Option<Action>
    ensures { result ≡ spec.action_named text.now }
{
    if is_word(text, "replace") {
        Some(Action::Replace)
    } else if is_word(text, "keep") {
        Some(Action::Keep)
    } else if is_word(text, "drop") {
        Some(Action::Drop)
    } else if is_word(text, "hashmod") {
        Some(Action::HashMod)
    } else if is_word(text, "lowercase") {
        Some(Action::Lowercase)
    } else if is_word(text, "uppercase") {
        Some(Action::Uppercase)
    } else {
        choosing_named(text)
    }
}

#[tactic(auto, unfolding(crate::specs::Relabelings::choosing_named))]
fn choosing_named(text: &str) -> Option<Action>
    ensures { result ≡ spec.choosing_named text.now }
{
    if is_word(text, "keepequal") {
        Some(Action::KeepEqual)
    } else if is_word(text, "dropequal") {
        Some(Action::DropEqual)
    } else if is_word(text, "labelmap") {
        Some(Action::LabelMap)
    } else if is_word(text, "labeldrop") {
        Some(Action::LabelDrop)
    } else if is_word(text, "labelkeep") {
        Some(Action::LabelKeep)
    } else {
        None
    }
}

fn is_word(text: &str, word: &str) -> bool
    ensures { result ≡ spec.is_word text.now word.now }
{
    text.eq_ignore_ascii_case(word)
}
