ghost use Rattle.std.specs.Prelude.{◌≡◌, ℕ, List, Some, map, IfOk, Err};
ghost use Rattle.ql_tree.specs.Spells.{Spells};
ghost use Rattle.ql_tree.specs.Tokens.{IsTokens};
ghost use Rattle.ql_tree.specs.Words.{word_in};
ghost use Rattle.ql_tree.specs.declared.tree.Expr.{Expr};
ghost use Rattle.ql_parse.specs.Gives.{Gives};
ghost use Rattle.ql_parse.specs.Reading as reading;
ghost use Rattle.ql_parse.specs.Trees as trees;

use crate::climbing::read;
use crate::fault::ParseFault;
use crate::words::words_of;
use ql_token::{TokenFault, tokens};
use ql_tree::{Expr, Token};
use std::alloc::Global;

/// The tree that the text spells. `NotExpr` comes exactly where no tree spells it: also where it
/// isn't cut into tokens, where more than 400 brackets are open, and where its tree would be deeper
/// than 200.
pub fn parse(alloc: Global, text: &str) -> Result<Expr, ParseFault>
    ensures tree { Gives (λ e. e) result (trees.tree_of text.now) }
    ensures spells { IfOk result (λ e. Spells e text.now) }
    ensures not_expr { (e : Expr) → result ≡ Err ParseFault.NotExpr → ¬ (Spells e text.now) }
    // No text spells two trees.
    ensures one_tree { (e f : Expr) → Spells e text.now → Spells f text.now → e ≡ f }
{
    match tokens(alloc, text) {
        Ok(found) => tree_of_tokens(alloc, text, found.as_slice()),
        Err(TokenFault::BadChar(_)) => Err(ParseFault::NotExpr),
        Err(TokenFault::NoMemory) => Err(ParseFault::NoMemory),
    }
}

/// `tree_of`, by which other crates speak of the tree of a text, gives a tree exactly where that tree
/// spells the text.
pub fn trees_spell()
    ensures spells { (text : List ℕ) (e : Expr) → trees.tree_of text ≡ Some e → Spells e text }
    ensures spelled { (text : List ℕ) (e : Expr) → Spells e text → trees.tree_of text ≡ Some e }
{}

/// The tree that the words of a text spell, which is cut into the tokens.
fn tree_of_tokens(alloc: Global, text: &str, tokens: &[Token]) -> Result<Expr, ParseFault>
    requires { IsTokens text.now tokens.now }
    ensures { Gives (λ e. e) result (reading.read (map (word_in text.now) tokens.now)) }
{
    let words = words_of(alloc, text, tokens)?;
    read(alloc, words.as_slice())
}
