//! Inputs of built-ins.
ghost use Rattle.std.specs.Prelude.{◌≡◌};
ghost use Rattle.fd_inputs.specs.Answers.{both_of};
ghost use Rattle.fd_inputs.specs.declared.input.Input.TheVariants.{Known, OtherKind};

use oz_base::Ident;

/// What a built-in reads off an argument.
#[derive(Drop)]
pub enum Input<A> {
    Known(A),
    /// Until this variable is determined.
    Unknown(Ident),
    /// It is of another kind than is asked for.
    OtherKind,
}

/// What is read before is known.
fn with_known<A: Drop, B: Drop>(known: A, right: Input<B>) -> Input<(A, B)>
    ensures { result ≡ both_of (Known known) right }
{
    match right {
        Input::Known(b) => Input::Known((known, b)),
        Input::Unknown(y) => Input::Unknown(y),
        Input::OtherKind => Input::OtherKind,
    }
}

/// What is read before is of another kind.
fn unless_unknown<A: Drop, B: Drop>(right: Input<B>) -> Input<(A, B)>
    ensures { result ≡ both_of OtherKind right }
{
    match right {
        Input::Unknown(y) => Input::Unknown(y),
        _ => Input::OtherKind,
    }
}

/// Of two inputs, both are waited for from left to right before a kind is looked at.
pub fn both<A: Drop, B: Drop>(left: Input<A>, right: Input<B>) -> Input<(A, B)>
    ensures { result ≡ both_of left right }
{
    match left {
        Input::Known(a) => with_known(a, right),
        Input::Unknown(x) => Input::Unknown(x),
        Input::OtherKind => unless_unknown(right),
    }
}
