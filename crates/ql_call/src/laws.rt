// Laws over the definitions: what the words of `specs/` mean in plain ones. Each is the contract of a function
// with an empty body.
ghost use Rattle.ql_call.specs.Best.{BestAreKept};
ghost use Rattle.ql_call.specs.Groups.{GroupsByKey};
ghost use Rattle.ql_call.specs.LabelsByName.{LabelsByName};
ghost use Rattle.ql_call.specs.LeastClash.{ClashesAreLeast};
ghost use Rattle.ql_call.specs.Neighbours.{AreOverNeighbours};
ghost use Rattle.ql_call.specs.Ordered.{NodesKeepOrder};
ghost use Rattle.ql_call.specs.Pairing.{PartnersByKey, VectorsByLabels};
ghost use Rattle.ql_call.specs.Sharing.{SetsByKey};

/// The labels of keys and of results are those of a list of names, or all others.
pub fn labels_by_name()
    ensures { LabelsByName }
{}

/// The groups of aggregates and of matching are the elements by their keys.
pub fn groups_by_key()
    ensures { GroupsByKey }
{}

/// An element of the many side meets the element that has its key, where just one has it.
pub fn partners_by_key()
    ensures { PartnersByKey }
{}

/// Elements whose labels a step changed come, where none clash, to the vector of them by their new labels.
pub fn vectors_by_labels()
    ensures { VectorsByLabels }
{}

/// `and`, `unless` and `or` keep elements by whether the other side has an equal key.
pub fn sets_by_key()
    ensures { SetsByKey }
{}

/// The clash that is told is the least pair that clashes, and none is told exactly where none does.
pub fn clashes_are_least()
    ensures { ClashesAreLeast }
{}

/// What a node comes to stands in strict label order where its operands do.
pub fn nodes_keep_order()
    ensures { NodesKeepOrder }
{}

/// `topk` and `bottomk` keep an element exactly where fewer than k of its group go before it.
pub fn best_are_kept()
    ensures { BestAreKept }
{}

/// `increase`, `changes` and `resets` are a sum and counts over neighbours.
pub fn ranges_by_neighbours()
    ensures { AreOverNeighbours }
{}
