//! Laws of what the machine prints: where the value of a variable is a finite tree, its text is that of the tree.
//!
//! The function does nothing: its contract states laws of the definitions.
#![tactic(auto)]

ghost use Rattle.print_law.specs.Laws.{OneTree, TreePrinted, PrintedRead, PrintedReadAlone};

/// What is printed of a finite tree is the text of the tree, which is read back as the same tree. Nothing: it holds laws.
pub fn printing_law()
    ensures one { OneTree }
    ensures printed { TreePrinted }
    ensures read { PrintedRead }
    ensures alone { PrintedReadAlone }
{}
