use op_base::Labels;

/// An element whose labels a step changes: its labels before the step and after it, and its value
/// after it.
#[derive(Debug, PartialEq, Eq, Drop)]
pub struct Changed {
    pub from: Labels,
    pub to: Labels,
    pub value: i64,
}
