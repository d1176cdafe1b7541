use op_base::{Labels, List, Moment, Text};

/// Another object that a change concerns, with its answer: the texts of its key and answer, and for
/// a skipped object the rule and the path.
#[derive(Debug, PartialEq, Eq, Drop)]
pub struct Also {
    pub key: Text,
    pub answer: Text,
    pub rule: Option<Text>,
    pub path: Option<Text>,
}

/// An alert at a tick: its labels, whether it fires or is pending, its first moment, whether it is
/// muted, and its receivers.
#[derive(Debug, PartialEq, Eq, Drop)]
pub struct AlertView {
    pub labels: Labels,
    pub firing: bool,
    pub first: Moment,
    pub muted: bool,
    /// Each with the labels of the alert's group there.
    pub receivers: List<(Text, Labels)>,
}

/// What one report line says. Keys, answers and rules stand as the texts of their line.
#[derive(Debug, PartialEq, Eq, Drop)]
pub enum View {
    /// A tenant's put or delete: a rule and a path for a refused or skipped object alone.
    Own {
        deleted: bool,
        key: Text,
        answer: Text,
        rule: Option<Text>,
        path: Option<Text>,
        also: List<Also>,
    },
    /// A put or delete of a Prometheus, an Alertmanager or a Namespace: a rule and a path for a refused or skipped
    /// object alone, and the key of the object that stands where it isn't taken beside another of its kind.
    Admin {
        deleted: bool,
        key: Text,
        answer: Text,
        rule: Option<Text>,
        path: Option<Text>,
        kept: Option<Text>,
    },
    /// What such a change means for the objects of a namespace.
    Change {
        key: Text,
        also: List<Also>,
    },
    /// The discovered entries of a namespace were replaced: by so many.
    Targets {
        count: u64,
    },
    /// Discovered entries that break a shape rule.
    TargetsRefused {
        rule: Text,
        path: Text,
    },
    /// A page was taken.
    Page {
        url: Text,
    },
    /// A line that breaks a shape rule.
    Bad {
        rule: Text,
        line: u64,
        path: Text,
    },
    /// An item of a file that can't be taken: the broken rule and where it is broken.
    BadFile {
        rule: Text,
        file: Text,
        item: u64,
        path: Text,
    },
    /// A line that is too long.
    Long {
        line: u64,
    },
    /// A tick that isn't above the last one.
    LateTick {
        last: Moment,
        line: u64,
    },
    /// What a tick gave: the alerts, the rules that failed, each by its object's name, its group and
    /// its place there from 0, and the entries that were stored, in label order; none for the value of
    /// a staleness marker.
    Tick {
        alerts: List<AlertView>,
        failed: List<(Text, Text, u64)>,
        stored: List<(Labels, Option<i64>)>,
        at: Moment,
    },
    /// A line whose form isn't built yet.
    NotYetLine {
        line: u64,
    },
    /// An item of a file whose form isn't built yet.
    NotYetFile {
        file: Text,
        item: u64,
    },
}

/// A view and whom it is for: a namespace, or everyone.
#[derive(Debug, PartialEq, Eq, Drop)]
pub struct Report {
    pub to: Option<Text>,
    pub view: View,
}
