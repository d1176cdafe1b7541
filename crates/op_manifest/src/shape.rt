ghost use Rattle.std.specs.Prelude.{◌≡◌, [], IfOk, OnErr};
ghost use Rattle.op_manifest.specs.Shapes as spec;

use op_base::{NoMemory, Text};
use std::alloc::{AllocError, Global};
use thiserror::Error;

/// The number of a rule on the shape of manifests and lines.
#[derive(Clone, Copy, Debug, PartialEq, Eq)]
pub struct ShapeRule(pub u8);

impl ShapeRule {
    /// The bytes aren't JSON.
    pub const NOT_JSON: ShapeRule = ShapeRule(1);
    /// `apiVersion` and `kind` name no kind, or a line has not exactly one key that is known.
    pub const UNKNOWN_KIND: ShapeRule = ShapeRule(2);
    /// A namespace, the name of an object or of a port has another form.
    pub const BAD_NAME: ShapeRule = ShapeRule(3);
    /// A value has another type.
    pub const WRONG_TYPE: ShapeRule = ShapeRule(4);
    /// A field that has to stand is absent.
    pub const MISSING: ShapeRule = ShapeRule(5);
    /// A text is none of those that may be chosen, or the data of a Secret isn't base64.
    pub const BAD_CHOICE: ShapeRule = ShapeRule(6);
    /// An object has a field that it can't have, or a second credential.
    pub const UNKNOWN_FIELD: ShapeRule = ShapeRule(7);
    /// A span has another form, or is too long.
    pub const BAD_SPAN: ShapeRule = ShapeRule(8);
    /// A number isn't whole, or out of its range.
    pub const BAD_NUMBER: ShapeRule = ShapeRule(9);
    /// A tag, its key, or the name of a label has another form.
    pub const BAD_LABEL: ShapeRule = ShapeRule(10);

    /// `S` and its number.
    pub fn text(self, alloc: Global) -> Result<Text, NoMemory>
        ensures { IfOk result (λ text. text ≡ spec.rule_text self) }
    {
        let number = self.0;
        Ok(Text::from_string(format!(in alloc; "S{number}")?))
    }
}

/// A rule on shape that is broken, and where: fields with `.` between them, items by their number in brackets.
#[derive(Debug, PartialEq, Eq, Drop)]
pub struct Shape {
    pub rule: ShapeRule,
    pub path: Text,
}

/// Why a manifest isn't read.
#[derive(Debug, PartialEq, Eq, Error, Drop)]
pub enum ShapeFault {
    /// A rule on shape is broken; of several the first in reading order.
    #[error("a rule on shape is broken")]
    Broken(Shape),
    #[error("no memory")]
    NoMemory,
}

impl From<NoMemory> for ShapeFault {
    ghost use Rattle.op_manifest.specs.declared.shape.ShapeFault.TheVariants.{NoMemory as no_memory};

    ghost from_gives = { λ _ fault. fault ≡ no_memory };

    fn from(_refused: NoMemory) -> ShapeFault {
        ShapeFault::NoMemory
    }
}

impl From<AllocError> for ShapeFault {
    ghost use Rattle.op_manifest.specs.declared.shape.ShapeFault.TheVariants.{NoMemory as no_memory};

    ghost from_gives = { λ _ fault. fault ≡ no_memory };

    fn from(_refused: AllocError) -> ShapeFault {
        ShapeFault::NoMemory
    }
}

/// Notes the rule as broken at the path, where no breach was noted before.
#[tactic(auto, unfolding(crate::specs::Shapes::later, crate::specs::Shapes::first))]
pub fn tell(found: &mut Option<Shape>, rule: ShapeRule, path: Text)
    ensures { found.new ≡ spec.later found.old (spec.wrong rule path) }
{
    if found.is_none() {
        *found = Some(Shape { rule, path });
    }
}

/// The path of an object's field.
#[tactic(auto, using(crate::proofs::ShapeLemmas::path_under))]
pub fn path_to(alloc: Global, path: &str, name: &str) -> Result<Text, NoMemory>
    ensures { IfOk result (λ text. text ≡ spec.path_to path.now name.now) }
{
    match path.as_bytes() {
        [] => Text::from_str(alloc, name),
        [_, ..] => Ok(Text::from_string(format!(in alloc; "{path}.{name}")?)),
    }
}

/// The path of a list's item.
pub fn path_at(alloc: Global, path: &str, index: usize) -> Result<Text, NoMemory>
    ensures { IfOk result (λ text. text ≡ spec.path_at path.now index) }
{
    Ok(Text::from_string(format!(in alloc; "{path}[{index}]")?))
}
