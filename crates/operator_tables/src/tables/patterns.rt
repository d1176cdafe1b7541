use crate::tables::{misfit, said};
use crate::trouble::Trouble;
use op_base::{NoMemory, Pattern, PatternFault, Text};
use std::alloc::Global;

/// Of a pattern and a text: whether the whole text matches.
pub fn found(alloc: Global, given: &[Text]) -> Result<Text, Trouble> {
    match given {
        [pattern, text] => Ok(said(alloc, matched(alloc, pattern.as_str(), text.as_str())?, "")?),
        _ => misfit(),
    }
}

fn matched(alloc: Global, pattern: &str, text: &str) -> Result<&'static str, NoMemory> {
    match Pattern::read(alloc, pattern) {
        Ok(pattern) => Ok(if pattern.matches(text)? {
            "match"
        } else {
            "none"
        }),
        Err(PatternFault::BadPattern) => Ok("!NotPattern"),
        Err(PatternFault::NoMemory) => Err(NoMemory),
    }
}
