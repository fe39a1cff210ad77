// The laws of graphs. Each stands on a function with an empty body, whose contract is the law.
ghost use Rattle.branch_graph.specs.Laws.{ReachesByParents};

/// Where parents have smaller numbers, a commit reaches another exactly where it is that commit, or some parent
/// of it reaches that one.
pub fn reaches_by_parents()
    ensures { ReachesByParents }
{}
