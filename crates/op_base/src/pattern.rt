ghost use Rattle.std.specs.Prelude.{◌≡◌, ◌++◌, false, None, Err, IfOk, OnOk, MatchOption, is_some, option_map, option_and_then};
ghost use Rattle.std.specs.Option.{option_map_or};
ghost use Rattle.regex.specs.Patterns.{find_str, SameCaptures};
ghost use Rattle.regex.specs.Strings.{regex_pattern, regex_names};
ghost use Rattle.regex.specs.Templates.{written_after};
ghost use Rattle.regex.specs.Replace.{group_bytes};
ghost use Rattle.op_base.specs.Patterns as spec;

use crate::memory::NoMemory;
use crate::template::written;
use crate::text::Text;
use regex::{Error, Regex, Template};
use std::alloc::{AllocError, Global};
use std::marker::Model;

/// Why a pattern isn't read.
#[derive(Clone, Copy, Debug, PartialEq, Eq)]
pub enum PatternFault {
    /// `regex` doesn't read it, or not once it is anchored, or finds it nested too deep.
    BadPattern,
    NoMemory,
}

impl From<NoMemory> for PatternFault {
    ghost use Rattle.std.specs.Prelude.{◌≡◌};
    ghost use Rattle.op_base.specs.declared.pattern.PatternFault.TheVariants.{NoMemory as no_memory};

    ghost from_gives = { λ _ fault. fault ≡ no_memory };

    fn from(_refused: NoMemory) -> Self {
        PatternFault::NoMemory
    }
}

/// A regular expression of the crate `regex`, anchored at both ends as Prometheus anchors them.
/// `(.*)` means every text, `(.+)` every text that isn't empty, and a literal pattern, which isn't
/// empty and consists of ASCII letters, digits, `_`, `-` and the pair `\-`, exactly the text that it
/// is without its backslashes. Contracts see its text. It keeps its allocator.
#[derive(Drop)]
pub struct Pattern {
    alloc: Global,
    text: Text,
    form: Form,
}

#[derive(Drop)]
enum Form {
    Every,
    NotEmpty,
    Literal(Vec<u8>),
    Regular(Regex),
}

impl Model for Pattern {
    ghost use Rattle.std.specs.Prelude.{List, ℕ};
    ghost use Rattle.op_base.specs.Patterns.{IsFormOf, meaning_of};

    ghost Value = { List ℕ };

    ghost view = { λ pattern. pattern.text };

    ghost invariant = { λ pattern. IsFormOf (meaning_of pattern.text) pattern.form };
}

impl Pattern {
    /// Reads a pattern. A text that is no pattern is never read. Where `regex` finds the compiled
    /// pattern too large, the answer is `NoMemory` too.
    pub fn read(alloc: Global, text: &str) -> Result<Pattern, PatternFault>
        ensures text { IfOk result (λ pattern. pattern ≡ text.now) }
        ensures read { OnOk result (spec.IsPattern text.now) }
        ensures refused { result ≡ Err PatternFault.BadPattern → spec.meaning_of text.now ≡ None }
    {
        let form = form_of(alloc, text)?;
        let text = Text::from_str(alloc, text)?;
        Ok(Pattern { alloc, text, form })
    }

    /// The text that was read.
    pub fn text(&self) -> &str
        ensures { result.now ≡ self.now }
    {
        self.text.as_str()
    }

    /// Whether the whole value matches.
    pub fn matches(&self, value: &str) -> Result<bool, NoMemory>
        ensures { IfOk result (λ found. found ≡ spec.pattern_matches self.now value.now) }
    {
        form_matches(self.alloc, &self.form, value)
    }

    /// What the template stands for where the whole value matches, and none where it doesn't. In a
    /// template `$1`, `$name` and `${name}` stand for groups and `$$` for `$`, as `regex` reads it.
    pub fn expand(&self, value: &str, template: &str) -> Result<Option<Text>, NoMemory>
        ensures { IfOk result (λ text. text ≡ spec.pattern_expands self.now value.now template.now) }
    {
        form_expands(self.alloc, &self.form, value, template)
    }
}

fn form_expands(
    alloc: Global,
    form: &Form,
    value: &str,
    template: &str,
) -> Result<Option<Text>, NoMemory>
    ensures { IfOk result (λ text. (meaning : _) → spec.IsFormOf meaning form.now
        → text ≡ option_and_then (spec.meaning_expands value.now template.now) meaning) }
{
    match form {
        Form::Every => Ok(Some(written(alloc, 2, value, template)?)),
        Form::NotEmpty => {
            if value.as_bytes().is_empty() {
                return Ok(None);
            }
            Ok(Some(written(alloc, 2, value, template)?))
        }
        Form::Literal(text) => {
            if text.as_slice() == value.as_bytes() {
                return Ok(Some(written(alloc, 1, value, template)?));
            }
            Ok(None)
        }
        Form::Regular(regex) => captured(alloc, regex, value, template),
    }
}

fn captured(
    alloc: Global,
    regex: &Regex,
    value: &str,
    template: &str,
) -> Result<Option<Text>, NoMemory>
    ensures { IfOk result (λ text. (re : _) → SameCaptures (regex_pattern regex.now) re
        → text ≡ option_map (λ found. written_after (regex_names regex.now) (group_bytes value.now found) template.now 0)
        (find_str re value.now 0)) }
{
    let template = Template::new(alloc, regex.capture_names(), template)?;
    let mut matcher = regex.matcher(alloc)?;
    match matcher.captures(value) {
        None => Ok(None),
        Some(captures) => {
            let mut text = String::new(alloc);
            captures.expand(alloc, &template, &mut text)?;
            Ok(Some(Text::from_string(text)))
        }
    }
}

fn form_matches(alloc: Global, form: &Form, value: &str) -> Result<bool, NoMemory>
    ensures { IfOk result (λ found. (meaning : _) → spec.IsFormOf meaning form.now
        → found ≡ option_map_or (spec.meaning_matches value.now) meaning false) }
{
    match form {
        Form::Every => Ok(true),
        Form::NotEmpty => Ok(!value.as_bytes().is_empty()),
        Form::Literal(text) => Ok(text.as_slice() == value.as_bytes()),
        Form::Regular(regex) => finds(alloc, regex, value),
    }
}

fn finds(alloc: Global, regex: &Regex, value: &str) -> Result<bool, NoMemory>
    ensures { IfOk result (λ found. (re : _) → SameCaptures (regex_pattern regex.now) re
        → found ≡ is_some (find_str re value.now 0)) }
{
    let mut matcher = regex.matcher(alloc)?;
    Ok(matcher.is_match(value))
}

fn form_of(alloc: Global, text: &str) -> Result<Form, PatternFault>
    ensures form { IfOk result (spec.IsFormOf (spec.meaning_of text.now)) }
    ensures refused { result ≡ Err PatternFault.BadPattern → spec.meaning_of text.now ≡ None }
{
    if text == "(.*)" {
        return Ok(Form::Every);
    }
    if text == "(.+)" {
        return Ok(Form::NotEmpty);
    }
    match literal(alloc, text.as_bytes())? {
        Some(bytes) => Ok(Form::Literal(bytes)),
        None => regular(alloc, text),
    }
}

fn regular(alloc: Global, text: &str) -> Result<Form, PatternFault>
    ensures form { IfOk result (spec.IsFormOf (spec.literal_or_regular None text.now)) }
    ensures refused { result ≡ Err PatternFault.BadPattern → spec.literal_or_regular None text.now ≡ None }
{
    if compiled(alloc, text)?.is_none() {
        return Err(PatternFault::BadPattern);
    }
    let anchored = anchored(alloc, text)?;
    match compiled(alloc, anchored.as_str())? {
        Some(regex) => Ok(Form::Regular(regex)),
        None => Err(PatternFault::BadPattern),
    }
}

fn anchored(alloc: Global, text: &str) -> Result<Text, NoMemory>
    ensures { IfOk result (λ anchored. anchored ≡ spec.anchored text.now) }
{
    let mut anchored = Text::from_str(alloc, "^(?:")?;
    anchored.push_str(text)?;
    anchored.push_str(")$")?;
    Ok(anchored)
}

// None where `regex` doesn't read the text or finds it nested too deep.
fn compiled(alloc: Global, text: &str) -> Result<Option<Regex>, NoMemory>
    ensures { IfOk result (λ regex. MatchOption regex (spec.reading_of text.now ≡ None) (spec.IsCompiled text.now)) }
{
    match Regex::new(alloc, text) {
        Ok(regex) => Ok(Some(regex)),
        Err(Error::Syntax(_)) => Ok(None),
        Err(_) => Err(NoMemory),
    }
}

// The text that a literal pattern means, or none for any other.
fn literal(alloc: Global, text: &[u8]) -> Result<Option<Vec<u8>>, NoMemory>
    ensures { IfOk result (λ literal. option_map (λ bytes. bytes.items) literal ≡ spec.literal_of text.now) }
{
    let mut bytes = Vec::new(alloc);
    let mut escaped = text.is_empty();
    for b in text {
        match literal_byte(escaped, *b) {
            None => return Ok(None),
            Some(begins) => {
                keep(&mut bytes, begins, *b)?;
                escaped = begins;
            }
        }
    }
    Ok(if escaped { None } else { Some(bytes) })
}

fn keep(bytes: &mut Vec<u8>, begins: bool, b: u8) -> Result<(), NoMemory>
    ensures { OnOk result (bytes.new.items ≡ bytes.old.items ++ spec.literal_part begins b) }
{
    if !begins {
        bytes.push(b)?;
    }
    Ok(())
}

// Whether the byte is a backslash that begins a pair, where it may stand in a literal pattern.
fn literal_byte(escaped: bool, b: u8) -> Option<bool>
    ensures { result ≡ spec.literal_step escaped b }
{
    if escaped {
        return if b == b'-' { Some(false) } else { None };
    }
    if b == b'\\' {
        return Some(true);
    }
    if b.is_ascii_alphanumeric() || b == b'_' || b == b'-' {
        Some(false)
    } else {
        None
    }
}
