ghost use Rattle.std.specs.Prelude.{◌≡◌, map, IfOk};
ghost use Rattle.ql_tree.specs.Tokens.{IsTokens};
ghost use Rattle.ql_tree.specs.Words as spec;
ghost use Rattle.ql_parse.specs.Placed.{IsPlaced, IsReadable};

use crate::keywords::keyword_of;
use crate::unescaped::unescaped;
use crate::values::{duration_of, number_of, symbol_of};
use op_base::{List, NoMemory, Text};
use ql_tree::{Token, TokenKind, Word};
use std::alloc::Global;

/// The words of a text that is cut into the tokens.
pub(crate) fn words_of(alloc: Global, text: &str, tokens: &[Token]) -> Result<List<Word>, NoMemory>
    requires { IsTokens text.now tokens.now }
    ensures { IfOk result (λ words. words ≡ map (spec.word_in text.now) tokens.now) }
{
    let mut words = List::new(alloc);
    for token in tokens {
        words.push(word_in(alloc, text, *token)?)?;
    }
    Ok(words)
}

fn word_in(alloc: Global, text: &str, token: Token) -> Result<Word, NoMemory>
    requires { IsPlaced text.now token }
    ensures { IfOk result (λ word. word ≡ spec.word_in text.now token) }
{
    word_of(alloc, token.kind, &text[token.start..token.end])
}

#[tactic(auto, unfolding(ql_tree::specs::Words::word_of))]
fn word_of(alloc: Global, kind: TokenKind, text: &str) -> Result<Word, NoMemory>
    requires { IsReadable kind text.now }
    ensures { IfOk result (λ word. word ≡ spec.word_of kind text.now) }
{
    match kind {
        TokenKind::Word => Ok(Word::Name(keyword_of(text), Text::from_str(alloc, text)?)),
        TokenKind::Number => Ok(Word::Number(number_of(text.as_bytes()))),
        TokenKind::Duration => Ok(Word::Duration(duration_of(text))),
        TokenKind::Str => Ok(Word::Quoted(unescaped(alloc, text)?)),
        TokenKind::Symbol => Ok(symbol_of(text.as_bytes())),
    }
}
