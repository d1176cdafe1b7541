ghost use Rattle.std.specs.Prelude.{◌≡◌, map, IfOk};
ghost use Rattle.serde_json.specs.View as shown;
ghost use Rattle.op_json.specs.Json.{Json, data_of, array_of};

use op_base::{List, NoMemory};
use op_json::push_item;
use serde_json::Value;
use std::alloc::Global;

/// What a line lists.
pub(crate) trait Listed {
    /// An item as JSON.
    ghost json: { Self → Json };

    /// The value that is written of it.
    fn value(&self, alloc: Global) -> Result<Value, NoMemory>
        ensures { IfOk result (λ value. shown.view value ≡ data_of (json self.now)) };
}

/// The array of the items.
pub(crate) fn array_value<T: Listed>(alloc: Global, items: &List<T>) -> Result<Value, NoMemory>
    ensures { IfOk result (λ value. shown.view value ≡ data_of (array_of (map T.json items.now))) }
{
    Ok(Value::Array(values_of(alloc, items.as_slice())?))
}

fn values_of<T: Listed>(alloc: Global, items: &[T]) -> Result<Vec<Value>, NoMemory>
    ensures { IfOk result (λ values. map shown.view values.items
        ≡ map (λ one. data_of (T.json one)) items.now) }
{
    let mut values = Vec::new(alloc);
    for item in items {
        push_item(&mut values, item.value(alloc)?)?;
    }
    Ok(values)
}
