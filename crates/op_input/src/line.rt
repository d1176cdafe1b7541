ghost use Rattle.std.specs.Prelude.{◌≡◌, [], IfOk};
ghost use Rattle.op_manifest.specs.Trees.{data_of};
ghost use Rattle.op_manifest.specs.Shapes.{Adds};
ghost use Rattle.op_manifest.specs.Shapes as shapes;
ghost use Rattle.op_input.specs.Lines as spec;

use crate::keys::only_field;
use crate::page::noted_page;
use crate::tick::noted_moment;
use op_base::{List, Moment, NoMemory, Text};
use op_json::read_json;
use op_manifest::{Shape, ShapeRule, Tree, tell, tree_from};
use srv_scrape::Sample;
use std::alloc::Global;

/// What an input line asks for.
#[derive(Debug, PartialEq, Eq, Drop)]
pub enum InputLine {
    /// The page at the URL has these samples, or none stands there.
    Page {
        url: Text,
        samples: Option<List<Sample>>,
    },
    /// The clock stands at the moment.
    Tick(Moment),
    /// Its key isn't read yet.
    NotYet,
    /// A rule on shape is broken. The path is counted from the value of the line's key; it is empty where that whole
    /// value, or the line itself, is wrong.
    Bad(Shape),
}

/// Whether the line has spaces, tabs and carriage returns alone.
pub fn is_blank(bytes: &[u8]) -> bool
    ensures { result ≡ spec.is_blank bytes.now }
{
    bytes.iter().all(|b| is_blank_byte(*b))
}

fn is_blank_byte(b: u8) -> bool
    ensures { result ≡ spec.is_blank_byte b }
{
    b == b' ' || b == b'\t' || b == b'\r'
}

/// What the bytes of a line ask for. They have no newline; a blank line is no JSON.
#[tactic(auto, using(op_manifest::proofs::ShapeLemmas::later_first), unfolding(crate::specs::Lines::line_of))]
pub fn read_line(alloc: Global, bytes: &[u8]) -> Result<InputLine, NoMemory>
    ensures line { IfOk result (λ line. line ≡ spec.line_of bytes.now) }
    ensures within { IfOk result spec.IsWithin }
{
    let mut found = None;
    let line = noted_line(&mut found, alloc, bytes)?;
    Ok(line_or_breach(line, found))
}

// The first breach stands for the line.
fn line_or_breach(line: InputLine, found: Option<Shape>) -> InputLine
    requires { spec.IsWithin line }
    ensures line { result ≡ spec.line_or_breach line found }
    ensures within { spec.IsWithin result }
{
    match found {
        Some(shape) => InputLine::Bad(shape),
        None => line,
    }
}

fn noted_line(found: &mut Option<Shape>, alloc: Global, bytes: &[u8]) -> Result<InputLine, NoMemory>
    ensures line { Adds (λ line. line) found.old found.new result (spec.line_wrongs bytes.now) (spec.asked_of bytes.now) }
    ensures within { IfOk result spec.IsWithin }
{
    match read_json(alloc, bytes)? {
        Some(value) => {
            let tree = tree_from(alloc, &value)?;
            noted_value(found, alloc, &tree)
        }
        None => {
            tell(found, ShapeRule::NOT_JSON, Text::new(alloc));
            Ok(InputLine::NotYet)
        }
    }
}

fn noted_value(found: &mut Option<Shape>, alloc: Global, tree: &Tree) -> Result<InputLine, NoMemory>
    ensures line { Adds (λ line. line) found.old found.new result
        (spec.value_wrongs (data_of tree.now)) (spec.value_of (data_of tree.now)) }
    ensures within { IfOk result spec.IsWithin }
{
    match only_field(tree, "page") {
        Some(page) => noted_page(found, alloc, page),
        None => Ok(noted_other(found, alloc, tree)),
    }
}

fn noted_other(found: &mut Option<Shape>, alloc: Global, tree: &Tree) -> InputLine
    ensures wrongs { found.new ≡ shapes.later found.old (spec.other_wrongs (data_of tree.now)) }
    ensures line { result ≡ spec.other_of (data_of tree.now) }
    ensures within { spec.IsWithin result }
{
    match only_field(tree, "tick") {
        Some(tick) => InputLine::Tick(noted_moment(found, alloc, tick)),
        None => {
            note_key(found, alloc, tree);
            InputLine::NotYet
        }
    }
}

#[tactic(auto, using(op_manifest::proofs::ShapeLemmas::later_none))]
fn note_key(found: &mut Option<Shape>, alloc: Global, tree: &Tree)
    ensures { found.new ≡ shapes.later found.old
        (shapes.unless (spec.is_not_yet (data_of tree.now)) ShapeRule.UNKNOWN_KIND []) }
{
    if !is_not_yet(tree) {
        tell(found, ShapeRule::UNKNOWN_KIND, Text::new(alloc));
    }
}

fn is_not_yet(tree: &Tree) -> bool
    ensures { result ≡ spec.is_not_yet (data_of tree.now) }
{
    only_field(tree, "put").is_some()
        || only_field(tree, "delete").is_some()
        || only_field(tree, "targets").is_some()
}
