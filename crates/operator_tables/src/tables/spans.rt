use crate::tables::{misfit, said};
use crate::trouble::Trouble;
use op_base::{NoMemory, Span, SpanFault, Text, read_span, span_text};
use std::alloc::Global;

/// Of a text: the milliseconds of the span, and how it is written.
pub fn found(alloc: Global, given: &[Text]) -> Result<Text, Trouble> {
    match given {
        [text] => Ok(shown(alloc, text.as_str())?),
        _ => misfit(),
    }
}

fn shown(alloc: Global, text: &str) -> Result<Text, NoMemory> {
    match read_span(text) {
        Ok(span) => shown_span(alloc, span),
        Err(SpanFault::Shape) => said(alloc, "!NotSpan", ""),
        Err(SpanFault::Long) => said(alloc, "!TooLong", ""),
    }
}

fn shown_span(alloc: Global, span: Span) -> Result<Text, NoMemory> {
    let milliseconds = span.0;
    if milliseconds < 0 {
        return said(alloc, "!Negative", "");
    }
    let milliseconds = format!(in alloc; "{milliseconds} ")?;
    let written = span_text(alloc, span)?;
    said(alloc, milliseconds.as_str(), written.as_str())
}
