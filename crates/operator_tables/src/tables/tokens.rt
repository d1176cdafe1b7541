use crate::compare::push_number;
use crate::tables::misfit;
use crate::trouble::Trouble;
use op_base::{NoMemory, Text};
use ql_token::{TokenFault, tokens};
use ql_tree::{Token, TokenKind};
use std::alloc::Global;

/// Of a text: its tokens.
pub fn found(alloc: Global, given: &[Text]) -> Result<Text, Trouble> {
    match given {
        [text] => Ok(shown(alloc, text.as_str())?),
        _ => misfit(),
    }
}

fn shown(alloc: Global, text: &str) -> Result<Text, NoMemory> {
    match tokens(alloc, text) {
        Ok(found) => listed(alloc, found.as_slice()),
        Err(TokenFault::BadChar(place)) => {
            Ok(Text::from_string(format!(in alloc; "!NotTokens:{place}")?))
        }
        Err(TokenFault::NoMemory) => Err(NoMemory),
    }
}

// Each as the letter of its kind, its start and its end.
fn listed(alloc: Global, found: &[Token]) -> Result<Text, NoMemory> {
    let mut all = Text::new(alloc);
    let mut separator = "";
    for token in found {
        push_token(alloc, &mut all, token, separator)?;
        separator = " ";
    }
    Ok(all)
}

fn push_token(
    alloc: Global,
    text: &mut Text,
    token: &Token,
    separator: &str,
) -> Result<(), NoMemory> {
    text.push_str(separator)?;
    text.push_str(letter_of(token.kind))?;
    push_number(alloc, text, token.start as u64)?;
    text.push_str("-")?;
    push_number(alloc, text, token.end as u64)
}

fn letter_of(kind: TokenKind) -> &'static str {
    match kind {
        TokenKind::Word => "w",
        TokenKind::Number => "n",
        TokenKind::Duration => "d",
        TokenKind::Str => "s",
        TokenKind::Symbol => "y",
    }
}
