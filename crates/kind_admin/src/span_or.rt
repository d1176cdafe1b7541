ghost use Rattle.std.specs.Prelude.{◌≡◌, unwrap_or};
ghost use Rattle.op_manifest.specs.Checks as check;
ghost use Rattle.op_manifest.specs.Optional.{interval_in};
ghost use Rattle.op_manifest.specs.Shapes.{Adds};
ghost use Rattle.op_manifest.specs.Trees.{data_of};

use op_base::{NoMemory, Span};
use op_manifest::{Shape, Tree, above_zero, noted_span};
use std::alloc::Global;

/// The span of the field, or the default where it is absent, an empty text or 0.
pub(crate) fn span_or(
    found: &mut Option<Shape>,
    alloc: Global,
    tree: &Tree,
    name: &str,
    path: &str,
    default: Span,
) -> Result<Span, NoMemory>
    ensures { Adds (λ span. span) found.old found.new result
        (check.optional check.span name.now path.now (data_of tree.now))
        (unwrap_or (interval_in name.now (data_of tree.now)) default) }
{
    let span = noted_span(found, alloc, tree, name, path)?;
    Ok(above_zero(span).unwrap_or(default))
}
