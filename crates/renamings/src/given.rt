//! The kinds of names in a space, each of which has numbers of its own.
ghost use Rattle.std.specs.Prelude.{◌≡◌};
ghost use Rattle.renamings.specs.Given.{given_of};

/// What an `Ident` names.
#[derive(Clone, Copy, Debug, PartialEq, Eq)]
pub enum Kind {
    Variable,
    Procedure,
    Name,
    Cell,
    Port,
}

/// How many numbers of each kind a space has given out.
#[derive(Clone, Copy, Debug, PartialEq, Eq)]
pub struct GivenOut {
    pub variables: u64,
    pub procedures: u64,
    pub names: u64,
    pub cells: u64,
    pub ports: u64,
    pub children: u64,
}

impl GivenOut {
    /// How many numbers of this kind.
    pub fn of(&self, kind: Kind) -> u64
        ensures { result ≡ given_of kind self.now }
    {
        match kind {
            Kind::Variable => self.variables,
            Kind::Procedure => self.procedures,
            Kind::Name => self.names,
            Kind::Cell => self.cells,
            Kind::Port => self.ports,
        }
    }
}
