//! Finite-domain problems, and the terms, items and distribution that they are made of.
use oz_base::{Copies, Rule, Sequence};
use oz_language::Sign;
use std::alloc::{AllocError, Global};

/// A term of a sum, over variables that are named by their places.
#[derive(Clone, Copy, Debug, PartialEq, Eq)]
pub enum Term {
    /// A multiple of a variable: the coefficient, and the variable.
    Multiple(i64, usize),
    /// A multiple of the product of two variables: the coefficient, and the variables.
    Product(i64, usize, usize),
}

/// What a problem says of its variables.
#[derive(Drop)]
pub enum Item {
    /// A variable lies between two integers, both included.
    Within(usize, i64, i64),
    /// The sum of a constant and terms stands so to 0, and each product is a domain value.
    Compares(Sign, i64, Sequence<Term>),
    /// The values of these variables are all different.
    Different(Sequence<usize>),
}

/// A rule, and the variables that it is to determine, in their order.
#[derive(Drop)]
pub struct Distribution {
    pub rule: Rule,
    pub over: Sequence<usize>,
}

/// A finite-domain problem. Its variables are 0 to `count` - 1.
#[derive(Drop)]
pub struct Problem {
    pub count: usize,
    pub items: Sequence<Item>,
    pub distribution: Distribution,
}

impl Copies for Term {
    fn copied(&self, _alloc: Global) -> Result<Self, AllocError> {
        Ok(*self)
    }
}

impl Copies for Item {
    fn copied(&self, alloc: Global) -> Result<Self, AllocError> {
        Ok(match self {
            Item::Within(variable, low, high) => Item::Within(*variable, *low, *high),
            Item::Compares(sign, constant, terms) => {
                Item::Compares(*sign, *constant, terms.copied(alloc)?)
            }
            Item::Different(variables) => Item::Different(variables.copied(alloc)?),
        })
    }
}

impl Copies for Distribution {
    fn copied(&self, alloc: Global) -> Result<Self, AllocError> {
        Ok(Distribution {
            rule: self.rule,
            over: self.over.copied(alloc)?,
        })
    }
}

impl Copies for Problem {
    fn copied(&self, alloc: Global) -> Result<Self, AllocError> {
        Ok(Problem {
            count: self.count,
            items: self.items.copied(alloc)?,
            distribution: self.distribution.copied(alloc)?,
        })
    }
}
