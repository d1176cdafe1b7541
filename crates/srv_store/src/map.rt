use op_base::{Labels, OrderedMap};

/// A finite map from label sets to values, in label order.
pub type LabelMap<V> = OrderedMap<Labels, V>;
