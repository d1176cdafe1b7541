use op_base::{Labels, Text};

/// What is scraped: the labels that its samples get, and the URL that is asked.
#[derive(Debug, PartialEq, Eq, Drop)]
pub struct Target {
    pub labels: Labels,
    pub url: Text,
}
