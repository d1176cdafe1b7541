ghost use Rattle.std.specs.Prelude.{◌≡◌, ◌++◌, flat_map, map, codes, bytes_eq, IfOk, OnOk};
ghost use Rattle.std.specs.List.{list_any};
ghost use Rattle.op_base.specs.Selectors as spec;

use crate::list::List;
use crate::memory::NoMemory;
use crate::tags::Tags;
use crate::text::Text;
use std::alloc::Global;

/// What a selector asks of one key of the tags. `NotIn` holds where the key is missing.
#[derive(Clone, Debug, PartialEq, Eq, Drop)]
pub enum Requirement {
    Is(Text, Text),
    In(Text, List<Text>),
    NotIn(Text, List<Text>),
    Exists(Text),
    Absent(Text),
}

/// A label selector of Kubernetes: all its requirements have to hold.
#[derive(Clone, Debug, PartialEq, Eq, Drop)]
pub struct Selector {
    pub all: List<Requirement>,
}

impl Selector {
    /// Whether all requirements hold on the tags. It takes no memory.
    pub fn holds(&self, tags: &Tags) -> bool
        ensures { result ≡ spec.chosen self.now tags.now }
    {
        self.all.as_slice().iter().all(|one| one.holds(tags))
    }

    /// The requirements as `k=v`, `k in (a,b)`, `k notin (a,b)`, `k` and `!k`, with a comma between
    /// two.
    pub fn text(&self, alloc: Global) -> Result<Text, NoMemory>
        ensures { IfOk result (λ text. text ≡ spec.selector_text self.now) }
    {
        let mut text = Text::new(alloc);
        match self.all.as_slice() {
            [] => {}
            [first, others @ ..] => {
                first.push_to(&mut text)?;
                push_others(&mut text, others)?;
            }
        }
        Ok(text)
    }
}

impl Requirement {
    fn holds(&self, tags: &Tags) -> bool
        ensures { result ≡ spec.requirement_holds tags.now self.now }
    {
        match self {
            Requirement::Is(key, value) => match tags.get(key.as_str()) {
                Some(other) => other.as_bytes() == value.as_bytes(),
                None => false,
            },
            Requirement::In(key, values) => has_one_of(tags, key.as_str(), values.as_slice()),
            Requirement::NotIn(key, values) => !has_one_of(tags, key.as_str(), values.as_slice()),
            Requirement::Exists(key) => tags.get(key.as_str()).is_some(),
            Requirement::Absent(key) => tags.get(key.as_str()).is_none(),
        }
    }

    fn push_to(&self, text: &mut Text) -> Result<(), NoMemory>
        ensures { OnOk result (text.new ≡ text.old ++ spec.requirement_text self.now) }
    {
        match self {
            Requirement::Is(key, value) => push_three(text, key.as_str(), "=", value.as_str()),
            Requirement::In(key, values) => {
                push_list(text, key.as_str(), " in (", values.as_slice())
            }
            Requirement::NotIn(key, values) => {
                push_list(text, key.as_str(), " notin (", values.as_slice())
            }
            Requirement::Exists(key) => text.push_str(key.as_str()),
            Requirement::Absent(key) => push_three(text, "!", key.as_str(), ""),
        }
    }
}

fn has_one_of(tags: &Tags, key: &str, values: &[Text]) -> bool
    ensures { result ≡ spec.has_one_of tags.now key.now values.now }
{
    match tags.get(key) {
        Some(value) => contains(values, value),
        None => false,
    }
}

fn contains(values: &[Text], value: &str) -> bool
    ensures { result ≡ list_any (λ other. bytes_eq other value.now) values.now }
{
    values
        .iter()
        .any(|other| other.as_bytes() == value.as_bytes())
}

fn push_three(text: &mut Text, first: &str, second: &str, third: &str) -> Result<(), NoMemory>
    ensures { OnOk result (text.new ≡ text.old ++ (first.now ++ second.now ++ third.now)) }
{
    text.push_str(first)?;
    text.push_str(second)?;
    text.push_str(third)
}

fn push_list(text: &mut Text, key: &str, word: &str, values: &[Text]) -> Result<(), NoMemory>
    ensures { OnOk result (text.new ≡ text.old ++ (key.now ++ word.now ++ spec.with_commas values.now ++ codes ")")) }
{
    text.push_str(key)?;
    text.push_str(word)?;
    push_values(text, values)?;
    text.push_str(")")
}

fn push_values(text: &mut Text, values: &[Text]) -> Result<(), NoMemory>
    ensures { OnOk result (text.new ≡ text.old ++ spec.with_commas values.now) }
{
    match values {
        [] => Ok(()),
        [first, others @ ..] => {
            text.push_str(first.as_str())?;
            push_more(text, others)
        }
    }
}

fn push_more(text: &mut Text, values: &[Text]) -> Result<(), NoMemory>
    ensures { OnOk result (text.new ≡ text.old ++ flat_map (λ other. codes "," ++ other) values.now) }
{
    for value in values {
        push_three(text, ",", value.as_str(), "")?;
    }
    Ok(())
}

fn push_others(text: &mut Text, others: &[Requirement]) -> Result<(), NoMemory>
    ensures { OnOk result (text.new ≡ text.old
        ++ flat_map (λ other. codes "," ++ other) (map spec.requirement_text others.now)) }
{
    for other in others {
        text.push_str(",")?;
        other.push_to(text)?;
    }
    Ok(())
}
