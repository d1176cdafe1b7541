use op_base::{List, Text};

/// A rule that failed: its object, its group, and its place there, counted from 0.
#[derive(Debug, PartialEq, Eq, Drop)]
pub struct FailedRule {
    pub namespace: Text,
    pub name: Text,
    pub group: Text,
    pub index: u64,
}

/// What a round shows beside the entries that it stores: the rules that failed, in their order.
#[derive(Debug, PartialEq, Eq, Drop)]
pub struct RoundView {
    pub failed: List<FailedRule>,
}
