//! Renamings are those that the definitions speak of. Each function does nothing: its contract states a law.
ghost use Rattle.renamed_terms.specs.Meanings.{MovesAsDefined, MergesAsDefined};

/// A renaming that moves one name to another is that of a copy. Nothing: it holds a law.
pub fn moving_as_defined()
    ensures { MovesAsDefined }
{}

/// A renaming with the names and numbers of two layers is that of merging one into the other. Nothing: it holds a law.
pub fn merging_as_defined()
    ensures { MergesAsDefined }
{}
