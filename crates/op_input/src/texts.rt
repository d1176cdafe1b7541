// What stands for a text that isn't there.
ghost use Rattle.std.specs.Prelude.{◌≡◌, [], IfOk, unwrap_or};

use op_base::{NoMemory, Text};
use std::alloc::Global;

/// The text, or another one where it isn't there.
pub fn text_or(alloc: Global, text: Option<Text>, other: &str) -> Result<Text, NoMemory>
    ensures { IfOk result (λ t. t ≡ unwrap_or text other.now) }
{
    match text {
        Some(text) => Ok(text),
        None => Text::from_str(alloc, other),
    }
}

/// The text, or the empty one.
pub fn text_or_empty(alloc: Global, text: Option<Text>) -> Text
    ensures { result ≡ unwrap_or text [] }
{
    match text {
        Some(text) => text,
        None => Text::new(alloc),
    }
}
