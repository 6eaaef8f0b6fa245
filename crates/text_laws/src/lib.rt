//! Laws of texts: a printed term is read back as the same term.
//!
//! Each function does nothing: its contract states laws of the definitions.
#![tactic(auto)]

ghost use Rattle.text_laws.specs.Laws.{ConstantsRead, TermsRead, TermsReadAnew, WordsStand, TermsReadAlone, ReadOnce, TextsTell};

/// The text of each integer, literal and finite record is read back as the same value. Nothing: it holds laws.
pub fn reading_law()
    ensures constants { ConstantsRead }
    ensures terms { TermsRead }
    ensures anew { TermsReadAnew }
    ensures alone { TermsReadAlone }
    ensures words { WordsStand }
{}

/// A text is read as one term, so no two terms have one text. Nothing: it holds laws.
pub fn once_law()
    ensures once { ReadOnce }
    ensures tells { TextsTell }
{}
