ghost use Rattle.std.specs.Prelude.{◌≡◌, IfOk};

use crate::tree::{Expr, Grouping, Matching, Side};
use op_base::{List, Matcher, NoMemory, Text};
use std::alloc::Global;

impl Expr {
    /// An equal tree.
    pub fn copy(&self, alloc: Global) -> Result<Expr, NoMemory>
        ensures { IfOk result (λ copy. copy ≡ self.now) }
    {
        copied(alloc, self)
    }
}

#[cycle(copies)]
fn copied(alloc: Global, expr: &Expr) -> Result<Expr, NoMemory>
    ensures { IfOk result (λ copy. copy ≡ expr.now) }
{
    match expr {
        Expr::Number(n) => Ok(Expr::Number(*n)),
        Expr::Str(text) => Ok(Expr::Str(Text::from_str(alloc, text.as_str())?)),
        Expr::Select {
            name,
            matchers,
            range,
            offset,
        } => Ok(Expr::Select {
            name: copy_name(alloc, name)?,
            matchers: copy_matchers(alloc, matchers.as_slice())?,
            range: *range,
            offset: *offset,
        }),
        Expr::Unary { minus, of } => Ok(Expr::Unary {
            minus: *minus,
            of: copy_all(alloc, of.as_slice())?,
        }),
        Expr::Binary {
            op,
            boolean,
            matching,
            left,
            right,
        } => Ok(Expr::Binary {
            op: *op,
            boolean: *boolean,
            matching: copy_matching(alloc, matching)?,
            left: copy_all(alloc, left.as_slice())?,
            right: copy_all(alloc, right.as_slice())?,
        }),
        Expr::Call { function, args } => Ok(Expr::Call {
            function: Text::from_str(alloc, function.as_str())?,
            args: copy_all(alloc, args.as_slice())?,
        }),
        Expr::Aggregate {
            op,
            grouping,
            param,
            of,
        } => Ok(Expr::Aggregate {
            op: *op,
            grouping: copy_grouping(alloc, grouping)?,
            param: copy_all(alloc, param.as_slice())?,
            of: copy_all(alloc, of.as_slice())?,
        }),
    }
}

#[cycle(copies)]
fn copy_all(alloc: Global, exprs: &[Expr]) -> Result<List<Expr>, NoMemory>
    ensures { IfOk result (λ copies. copies ≡ exprs.now) }
{
    let mut copies = List::new(alloc);
    for expr in exprs {
        copies.push(copied(alloc, expr)?)?;
    }
    Ok(copies)
}

fn copy_name(alloc: Global, name: &Option<Text>) -> Result<Option<Text>, NoMemory>
    ensures { IfOk result (λ copy. copy ≡ name.now) }
{
    match name {
        Some(name) => Ok(Some(Text::from_str(alloc, name.as_str())?)),
        None => Ok(None),
    }
}

fn copy_texts(alloc: Global, texts: &[Text]) -> Result<List<Text>, NoMemory>
    ensures { IfOk result (λ copies. copies ≡ texts.now) }
{
    let mut copies = List::new(alloc);
    for text in texts {
        copies.push(Text::from_str(alloc, text.as_str())?)?;
    }
    Ok(copies)
}

fn copy_matcher(alloc: Global, m: &Matcher) -> Result<Matcher, NoMemory>
    ensures { IfOk result (λ copy. copy ≡ m.now) }
{
    Ok(Matcher {
        name: Text::from_str(alloc, m.name.as_str())?,
        op: m.op,
        value: Text::from_str(alloc, m.value.as_str())?,
    })
}

fn copy_matchers(alloc: Global, matchers: &[Matcher]) -> Result<List<Matcher>, NoMemory>
    ensures { IfOk result (λ copies. copies ≡ matchers.now) }
{
    let mut copies = List::new(alloc);
    for m in matchers {
        copies.push(copy_matcher(alloc, m)?)?;
    }
    Ok(copies)
}

fn copy_side(alloc: Global, side: &Option<Side>) -> Result<Option<Side>, NoMemory>
    ensures { IfOk result (λ copy. copy ≡ side.now) }
{
    match side {
        Some(side) => Ok(Some(Side {
            left: side.left,
            include: copy_texts(alloc, side.include.as_slice())?,
        })),
        None => Ok(None),
    }
}

fn copy_matching(alloc: Global, matching: &Option<Matching>) -> Result<Option<Matching>, NoMemory>
    ensures { IfOk result (λ copy. copy ≡ matching.now) }
{
    match matching {
        Some(m) => Ok(Some(Matching {
            on: m.on,
            labels: copy_texts(alloc, m.labels.as_slice())?,
            side: copy_side(alloc, &m.side)?,
        })),
        None => Ok(None),
    }
}

fn copy_grouping(alloc: Global, grouping: &Option<Grouping>) -> Result<Option<Grouping>, NoMemory>
    ensures { IfOk result (λ copy. copy ≡ grouping.now) }
{
    match grouping {
        Some(g) => Ok(Some(Grouping {
            by: g.by,
            labels: copy_texts(alloc, g.labels.as_slice())?,
        })),
        None => Ok(None),
    }
}
