//! Where a search starts, and how its nodes are made.
ghost use Rattle.std.specs.Prelude.{◌≡◌, ℕ, IfOk};
ghost use Rattle.oz_search.specs.Nodes.{Maker, IsMaker, tree};
ghost use Rattle.oz_semantics.specs.declared.configuration.Configuration.{Configuration};
ghost use Rattle.recompute.specs.Origins.{Origin};
ghost use Rattle.recompute.specs.Ways.{StandsAfter};

use crate::frozen::Frozen;
use node_pool::{SearchKind, Tree};
use oz_machine::Machine;
use oz_search::Report;
use std::alloc::{AllocError, Global};

/// A tag of the tree of a search: it says where the search starts, and how it makes the nodes. A machine that it is given is one
/// of the program.
pub trait Source: Tree {
    // Where the search starts.
    ghost origin: { Self → Origin };

    // How its nodes are made.
    ghost maker: { Self → Maker Self.Kind.Branch Self.Kind.Leaf Configuration };

    /// An equal one.
    fn copy(&self, alloc: Global) -> Result<Self, AllocError>
        ensures { IfOk result (λ copy. copy ≡ self.now) };

    /// Where the search starts.
    fn frozen(&self) -> &Frozen
        ensures { result.now ≡ origin self.now };

    /// The machine of a node, whose space that is searched was committed to a branch that the node offers.
    fn commit(
        &self,
        alloc: Global,
        branch: <Self::Kind as SearchKind>::Branch,
        machine: Machine,
    ) -> Result<Machine, AllocError>
        requires { machine.kernel ≡ (origin self.now).kernel }
        ensures commit { IfOk result (λ after. after.config ≡ (maker self.now).commit branch machine.config) }
        ensures kernel { IfOk result (λ after. after.kernel ≡ machine.kernel) };

    /// Runs the space, which was just made or committed, until it rests, and says what its node is. None exactly where the node has more
    /// own steps than the fuel.
    fn run(
        &self,
        alloc: Global,
        machine: &mut Machine,
        fuel: u64,
    ) -> Result<Option<Report<<Self::Kind as SearchKind>::Leaf>>, AllocError>
        requires { machine.old.kernel ≡ (origin self.now).kernel }
        ensures { IfOk result (StandsAfter (maker self.now) fuel machine.old machine.new) };

    // The nodes are the same with any fuel that suffices, and the tree is theirs.
    ghost makes: { (x : Self) → IsMaker (maker x) };

    ghost grows: { (x : Self) (fuel : ℕ) → Self.within x fuel ≡ tree Self.Kind.search (maker x) fuel (origin x).config };
}
