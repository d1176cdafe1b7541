use op_base::{List, Matcher, Span, Text};

/// Arithmetic of PromQL: `+`, `-`, `*`, `/` and `%`.
#[derive(Clone, Copy, Debug, PartialEq, Eq)]
pub enum ArithOp {
    Add,
    Sub,
    Mul,
    Div,
    Rem,
}

/// A binary operator: arithmetic, `==`, `!=`, `>`, `<`, `>=`, `<=`, `and`, `unless` and `or`.
#[derive(Clone, Copy, Debug, PartialEq, Eq)]
pub enum BinaryOp {
    Arith(ArithOp),
    Eq,
    Ne,
    Gt,
    Lt,
    Ge,
    Le,
    And,
    Unless,
    Or,
}

/// An aggregate: `sum`, `min`, `max`, `avg`, `group`, `count`, `count_values`, `topk` and
/// `bottomk`.
#[derive(Clone, Copy, Debug, PartialEq, Eq)]
pub enum AggregateOp {
    Sum,
    Min,
    Max,
    Avg,
    Group,
    Count,
    CountValues,
    TopK,
    BottomK,
}

/// `group_left (..)`, or `group_right (..)` where `left` is false.
#[derive(Clone, Debug, PartialEq, Eq, Drop)]
pub struct Side {
    pub left: bool,
    pub include: List<Text>,
}

/// `on (..)`, or `ignoring (..)` where `on` is false, with a `group_` clause or none.
#[derive(Clone, Debug, PartialEq, Eq, Drop)]
pub struct Matching {
    pub on: bool,
    pub labels: List<Text>,
    pub side: Option<Side>,
}

/// `by (..)`, or `without (..)` where `by` is false.
#[derive(Clone, Debug, PartialEq, Eq, Drop)]
pub struct Grouping {
    pub by: bool,
    pub labels: List<Text>,
}

/// A PromQL expression. Brackets leave no node. A single child (`of`, `left`, `right`) is a list
/// of one, and `param` a list of one or, where it is absent, of none. A negative offset is a
/// negative span. Children are numbered from 0 in the order of the text.
#[derive(Debug, PartialEq, Eq, Drop)]
pub enum Expr {
    Number(i64),
    Str(Text),
    Select {
        name: Option<Text>,
        matchers: List<Matcher>,
        range: Option<Span>,
        offset: Option<Span>,
    },
    Unary {
        minus: bool,
        of: List<Expr>,
    },
    Binary {
        op: BinaryOp,
        boolean: bool,
        matching: Option<Matching>,
        left: List<Expr>,
        right: List<Expr>,
    },
    Call {
        function: Text,
        args: List<Expr>,
    },
    Aggregate {
        op: AggregateOp,
        grouping: Option<Grouping>,
        param: List<Expr>,
        of: List<Expr>,
    },
}
