// Laws of what a sequence means, apart from any call.
ghost use Rattle.mrdt_sequence.specs.Laws.{InOrder, InPreorder};

/// Each node's parent is the nearest earlier one before it, or the start where there is none.
pub fn nodes_in_order()
    ensures { InOrder }
{}

/// The nodes are a forest in preorder, siblings newest first.
pub fn nodes_in_preorder()
    ensures { InPreorder }
{}
