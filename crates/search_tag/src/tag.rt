//! Trees by their tags.
ghost use Rattle.std.specs.Prelude.{◌≡◌, ◌<◌, ℕ, List, true, None};
ghost use Rattle.oz_search.specs.declared.tree.Report.{Report};
ghost use Rattle.oz_search.specs.Searches.{Search, IsSearch};
ghost use Rattle.oz_search.specs.Nodes.{Fuelled, IsNodeAt, IsFuelled};
ghost use Rattle.oz_search.specs.Histories.{History, IsLegal, is_claimed};

/// A value that names a tree, for one kind of search.
pub trait Tree {
    type Branch;

    type Leaf;

    // The kind of search.
    ghost search: { Search Self.Branch Self.Leaf };

    // The tree as far as each node takes no more steps than there is fuel.
    ghost within: { Self → Fuelled Self.Branch Self.Leaf };

    /// Does nothing: the laws of the trait stand behind a method.
    fn named(&self);

    ghost searches: { IsSearch search };

    ghost fuelled: { (t : Self) → IsFuelled search (within t) };
}

/// After a legal history, a claimed node that is not there within the budget has more own steps than the budget.
pub fn claimed_is_over<T: Tree>()
    ensures { (t : T) (budget : ℕ) (h : History T.Branch T.Leaf) (p : List T.Branch) (r : Report T.Leaf) → IsLegal (T.within t) T.search budget h → is_claimed T.search h p ≡ true → T.within t budget p ≡ None → IsNodeAt (T.within t) p r → budget < r.steps }
{}
