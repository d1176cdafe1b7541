//! What several tests make. Contracts say nothing here, so that the proof of a test stays small.

use op_base::{Labels, List, NoMemory, Text};
use std::alloc::Global;

/// The bytes of a text.
pub fn bytes_of(alloc: Global, text: &str) -> Result<List<u8>, NoMemory> {
    Ok(List::from_vec(text.as_bytes().to_vec(alloc)?))
}

/// Whether what a test looks at is so; with no memory it isn't.
pub fn is_so(looked: Result<bool, NoMemory>) -> bool {
    matches!(looked, Ok(true))
}

/// A list of one thing.
pub fn list_of<T: Drop>(alloc: Global, item: T) -> Result<List<T>, NoMemory> {
    let mut items = List::new(alloc);
    items.push(item)?;
    Ok(items)
}

/// The text of these bytes.
pub fn text(alloc: Global, text: &str) -> Result<Text, NoMemory> {
    Text::from_str(alloc, text)
}

/// A label set of one label.
pub fn label(alloc: Global, name: &str, value: &str) -> Result<Labels, NoMemory> {
    let mut labels = Labels::new(alloc);
    labels.set(name, value)?;
    Ok(labels)
}
