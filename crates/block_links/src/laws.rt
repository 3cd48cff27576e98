ghost use Rattle.block_links.specs.Laws.{LinksDecide};

/// What is allowed in a block depends on its links alone, and so does whether it is whole.
pub fn links_decide()
    ensures { LinksDecide }
{}
