// Patterns are read before an expression is evaluated again and again.
ghost use Rattle.std.specs.Prelude.{◌≡◌};

use op_base::{MatchOp, Matcher, NoMemory};
use ql_tree::Expr;
use srv_store::Store;

/// Reads the patterns of the matchers of all selectors of the expression, so that no evaluation over
/// the store reads them anew.
#[cycle(reading)]
pub fn read_patterns(expr: &Expr, store: &mut Store) -> Result<(), NoMemory>
    ensures { store.new ≡ store.old }
{
    match expr {
        Expr::Number(_) => Ok(()),
        Expr::Str(_) => Ok(()),
        Expr::Select { matchers, .. } => read_each(matchers.as_slice(), store),
        Expr::Unary { of, .. } => read_below(of.as_slice(), store),
        Expr::Binary { left, right, .. } => {
            read_below(left.as_slice(), store)?;
            read_below(right.as_slice(), store)
        }
        Expr::Call { args, .. } => read_below(args.as_slice(), store),
        Expr::Aggregate { param, of, .. } => {
            read_below(param.as_slice(), store)?;
            read_below(of.as_slice(), store)
        }
    }
}

#[cycle(reading)]
fn read_below(exprs: &[Expr], store: &mut Store) -> Result<(), NoMemory>
    ensures { store.new ≡ store.old }
{
    for expr in exprs {
        read_patterns(expr, store)?;
    }
    Ok(())
}

fn read_each(matchers: &[Matcher], store: &mut Store) -> Result<(), NoMemory>
    ensures { store.new ≡ store.old }
{
    for matcher in matchers {
        read_one(matcher, store)?;
    }
    Ok(())
}

fn read_one(matcher: &Matcher, store: &mut Store) -> Result<(), NoMemory>
    ensures { store.new ≡ store.old }
{
    match matcher.op {
        MatchOp::Eq => Ok(()),
        MatchOp::Ne => Ok(()),
        MatchOp::Re => store.read_pattern(matcher.value.as_str()),
        MatchOp::Nr => store.read_pattern(matcher.value.as_str()),
    }
}
