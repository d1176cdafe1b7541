use crate::tables::{misfit, said};
use crate::trouble::Trouble;
use op_base::{NoMemory, Pattern, PatternFault, Text};
use std::alloc::Global;

/// Of a pattern, a text and a template: what the template stands for where the whole text matches.
pub fn found(alloc: Global, given: &[Text]) -> Result<Text, Trouble> {
    match given {
        [pattern, text, template] => {
            Ok(expanded(alloc, pattern.as_str(), text.as_str(), template.as_str())?)
        }
        _ => misfit(),
    }
}

fn expanded(alloc: Global, pattern: &str, text: &str, template: &str) -> Result<Text, NoMemory> {
    match Pattern::read(alloc, pattern) {
        Ok(pattern) => match pattern.expand(text, template)? {
            Some(expanded) => Ok(expanded),
            None => said(alloc, "!None", ""),
        },
        Err(PatternFault::BadPattern) => said(alloc, "!NotPattern", ""),
        Err(PatternFault::NoMemory) => Err(NoMemory),
    }
}
