//! Laws of a search over finite domains in a script's one space: its nodes show a tree of the search over stores.
//!
//! Each function does nothing: its contract is a law. `specs/Laws` says what a search is and what its nodes show, and
//! `specs/BestSearching` what the nodes of a best search show.
#![tactic(auto)]

ghost use Rattle.fd_search.specs.Laws.{Setting, StepsLaw, RunLaw, TreeLaw, SearchLaw};
ghost use Rattle.fd_search.specs.Texts.{TextsLaw};
ghost use Rattle.fd_search.specs.BestSearching.{StepsBelowLaw, RunBelowLaw, TreeBelowLaw, SearchBelowLaw};
ghost use Rattle.oz_language.specs.declared.kernel.Constant.{Constant};
ghost use Rattle.std.specs.Prelude.{ℕ};

/// Where the run of the space ends after a step, it ends before it (`steps`), and it ends once the thread distributes (`runs`).
pub fn run_law()
    ensures steps { (its : Setting) → StepsLaw its }
    ensures runs { RunLaw }
{}

/// Where the run of the space ends, its nodes show a tree of the search (`tree`), as they do from where the thread distributes (`search`).
pub fn search_law()
    ensures tree { TreeLaw }
    ensures search { SearchLaw }
{}

/// Where its variables are determined, the text of a record has their values. Nothing: it holds a law.
pub fn text_law()
    ensures { TextsLaw }
{}

/// Best search. Where the run of the space ends after a step, it ends before it (`steps`), and it ends once the thread distributes
/// (`runs`).
pub fn best_run_law()
    ensures steps { (its : Setting) (feature : Constant) (cost : ℕ) → StepsBelowLaw its feature cost }
    ensures runs { RunBelowLaw }
{}

/// Best search. Where the run of the space ends, its nodes show a bounded tree (`tree`), as they do from where the thread distributes
/// (`search`).
pub fn best_search_law()
    ensures tree { TreeBelowLaw }
    ensures search { SearchBelowLaw }
{}
