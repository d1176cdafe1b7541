use op_base::{Tags, Text};

/// What is discovered: the endpoints of a Service, or a Pod.
#[derive(Clone, Copy, Debug, PartialEq, Eq)]
pub enum Role {
    Endpoints,
    Pod,
}

/// A discovered entry: the Service's or the Pod's name and labels, and one of its addresses with the name of its
/// port. The Pod that stands behind an address of a Service has a name of its own. Both of these may be empty.
#[derive(Debug, PartialEq, Eq, Drop)]
pub struct Found {
    pub role: Role,
    pub name: Text,
    pub tags: Tags,
    pub address: Text,
    pub port: Text,
    pub pod: Text,
}
