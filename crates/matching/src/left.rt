//! What of a match is left.
ghost use Rattle.std.specs.Prelude.{◌≡◌, ◌++◌, ◌∷◌, [], OnOk, MatchOption};
ghost use Rattle.matching.specs.Lefts.{subjects_of, IsOver, Takes, IsRefilled};

use oz_base::{Ident, Stack};
use oz_language::Piece;
use std::alloc::{AllocError, Global};
use std::slice;

/// Nodes of a pattern, and the variables in their places.
#[derive(Drop)]
pub struct Left<'p, 'a> {
    pub nodes: &'p [Piece],
    /// Variables that stand beside each other, before all others.
    pub beside: &'a [Ident],
    /// Those behind them, the nearest on top.
    pub behind: Stack<&'a [Ident]>,
}

impl<'p, 'a> Left<'p, 'a> {
    /// A whole pattern, and the variable in its place. It takes no memory.
    pub fn new(alloc: Global, pattern: &'p [Piece], subject: &'a Ident) -> Self
        ensures nodes { result.nodes.now ≡ pattern.now }
        ensures subjects { subjects_of result ≡ subject.now ∷ [] }
    {
        Left {
            nodes: pattern,
            beside: slice::from_ref(subject),
            behind: Stack::new(alloc),
        }
    }

    /// Puts those behind in front where no others stand there.
    fn refill(&mut self)
        ensures { IsRefilled self.old self.new }
    {
        'behind: while self.beside.is_empty() {
            let Some(next) = self.behind.pop() else {
                return;
            };
            self.beside = next;
        }
    }

    /// Takes the next node, and the variable in its place.
    pub fn take(&mut self) -> Option<(&'p Piece, &'a Ident)>
        ensures { MatchOption result (IsOver self.old) (λ taken. Takes self.old self.new taken.0.now taken.1.now) }
    {
        self.refill();
        let (node, nodes) = self.nodes.split_first()?;
        let (subject, beside) = self.beside.split_first()?;
        self.nodes = nodes;
        self.beside = beside;
        Some((node, subject))
    }

    /// Puts the variables in the fields of a node before all others. It takes memory where it is to remember others beside the
    /// node.
    pub fn enter(&mut self, fields: &'a [Ident]) -> Result<(), AllocError>
        ensures nodes { OnOk result (self.new.nodes.now ≡ self.old.nodes.now) }
        ensures subjects { OnOk result (subjects_of self.new ≡ fields.now ++ subjects_of self.old) }
    {
        if fields.is_empty() {
            return Ok(());
        }
        if !self.beside.is_empty() {
            self.behind.push(self.beside)?;
        }
        self.beside = fields;
        Ok(())
    }
}
