//! Kinds of search, as a pool runs them.
ghost use Rattle.std.specs.Prelude.{◌≡◌, ℕ, List, true};
ghost use Rattle.std.specs.Cmp.{IsTotalOrder};
ghost use Rattle.oz_search.specs.Searches.{Search, IsSearch};
ghost use Rattle.oz_search.specs.Paths.{Taking, IsTaking};
ghost use Rattle.oz_search.specs.Histories.{History, Replays};
ghost use Rattle.search_law.specs.Law.{Follows};
ghost use Rattle.pool_state.specs.Branching.{by_last, so_far};

use std::cmp::Ordering;

/// A kind of search: what a branch is, what is reported of a leaf, and what a claim bears of the leaves before it.
pub trait SearchKind: Drop {
    /// How a path goes on: by an alternative, and what is fixed besides.
    type Branch: Copy;

    /// What is reported of a leaf.
    type Leaf: Drop;

    /// What a claim has to know of the leaves before it.
    type SoFar: Copy;

    // The kind of search.
    ghost search: { Search Self.Branch Self.Leaf };

    // What is so far where no leaf has come.
    ghost first: { Self.SoFar };

    // What is so far after one leaf more.
    ghost more: { Self.SoFar → Self.Leaf → Self.SoFar };

    // The branch to the same alternative as a claim takes it, with what is so far.
    ghost bears: { Self.SoFar → Self.Branch → Self.Branch };

    // The branches by which a history takes the alternatives.
    ghost takes: { History Self.Branch Self.Leaf → Taking Self.Branch };

    /// The alternative that the branch takes, counted from 1.
    fn number(branch: Self::Branch) -> u32
        ensures { result ≡ search.number branch };

    /// The branch to the alternative by which nothing else is fixed.
    fn free(alternative: u32) -> Self::Branch
        ensures { result ≡ search.free alternative };

    /// The order of branches, by which siblings stand from left to right.
    fn compare(branch: Self::Branch, other: Self::Branch) -> Ordering
        ensures { result ≡ search.cmp branch other };

    /// Whether the leaf is a failed node.
    fn fails(leaf: &Self::Leaf) -> bool
        ensures { result ≡ search.fails leaf.now };

    /// What is so far where no leaf has come.
    fn first() -> Self::SoFar
        ensures { result ≡ first };

    /// What is so far after one leaf more.
    fn more(so_far: Self::SoFar, leaf: &Self::Leaf) -> Self::SoFar
        ensures { result ≡ more so_far leaf.now };

    /// The branch to the same alternative as a claim takes it.
    fn bears(so_far: Self::SoFar, branch: Self::Branch) -> Self::Branch
        ensures { result ≡ bears so_far branch };

    // It is a kind of search, and its branches are in one order.
    ghost searches: { IsSearch search };

    ghost total: { IsTotalOrder search.cmp };

    // A claim goes to the alternative that was open, and may name the path that it bears.
    ghost same_number: { (c : Self.SoFar) (b : Self.Branch) → search.number (bears c b) ≡ search.number b };

    ghost admitted: { (h : History Self.Branch Self.Leaf) (p : List Self.Branch) → search.admits h (by_last (bears (so_far more first h)) p) ≡ true };

    // A history that replays follows the branches by which it takes the alternatives.
    ghost follows: { (budget : ℕ) (h : History Self.Branch Self.Leaf) → Replays search budget h → IsTaking search (takes h) × Follows search (takes h) h };
}
