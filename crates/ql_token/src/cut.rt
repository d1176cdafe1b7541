ghost use Rattle.std.specs.Prelude.{◌≡◌, ◌<◌, ℕ, IfOk, length};
ghost use Rattle.std.specs.Prelude as seen;
ghost use Rattle.ql_tree.specs.declared.token.Token.{Token};
ghost use Rattle.ql_tree.specs.Tokens.{IsTokens, IsBadAt};
ghost use Rattle.ql_token.specs.Cuts.{IsStep};

use crate::bytes::gap;
use crate::fault::TokenFault;
use crate::front::front;
use op_base::List;
use ql_tree::{Token, TokenKind};
use std::alloc::Global;

enum Step {
    Gap(usize),
    Token(TokenKind, usize),
    Bad,
}

fn next(bytes: &[u8]) -> Step
    requires { 0 < length bytes.now }
    ensures { IsStep bytes.now result }
{
    let blank = gap(bytes);
    if blank > 0 {
        return Step::Gap(blank);
    }
    match front(bytes) {
        Some((kind, len)) => Step::Token(kind, len),
        None => Step::Bad,
    }
}

/// The tokens of a PromQL text in order, each with its place. `BadChar` comes exactly where the text
/// is no list of tokens, with the first byte that no token, white space or comment begins at; for a
/// broken string, a number that is too large, and digits followed by anything else of a word, that
/// is the first of their bytes. It takes time linear in the text.
pub fn tokens(alloc: Global, text: &str) -> Result<List<Token>, TokenFault>
    ensures tokens { IfOk result (λ found. IsTokens text.now found) }
    ensures bad_char { (place : ℕ) → result ≡ Err (TokenFault.BadChar place) → IsBadAt text.now place }
    ensures no_tokens { (place : ℕ) (found : seen.List Token) → result ≡ Err (TokenFault.BadChar place)
        → ¬ (IsTokens text.now found) }
{
    let mut found = List::new(alloc);
    let mut behind = text.as_bytes();
    let mut place: usize = 0;
    while behind.len() > 0 {
        match next(behind) {
            Step::Gap(blank) => {
                place += blank;
                behind = op_base::behind(behind, blank);
            }
            Step::Token(kind, len) => {
                found.push(Token {
                    kind,
                    start: place,
                    end: place + len,
                })?;
                place += len;
                behind = op_base::behind(behind, len);
            }
            Step::Bad => return Err(TokenFault::BadChar(place)),
        }
    }
    Ok(found)
}
