//! How many constructs are open.
ghost use Rattle.std.specs.Prelude.{◌≡◌, ◌≤◌, ◌+◌, ◌∷◌, [], suc, nat_lt, OnOk, IfOk, IfSome, IfNone};
ghost use Rattle.oz_language.specs.Refusals.{depth_limit, text_open, open_with, depth_of, opened, innermost, opening, closing, at_operand, at_end, operating, accessing, weighing, boxing, catching};
ghost use Rattle.open_depth.specs.Depths.{open_of, opens_of, change_by};

use oz_base::Stack;
use oz_language::Token;
use std::alloc::{AllocError, Global};
use std::marker::Model;

/// A token lies too deep in more open constructs than these.
const DEPTH_LIMIT: u32 = 200;

/// A construct that is open.
#[derive(Clone, Copy, Debug, PartialEq, Eq)]
struct Open {
    /// For how many it counts.
    weight: u32,
    /// Whether a `[]` in it counts.
    counts_boxes: bool,
    /// The operators of the expression that goes on in it.
    operators: u32,
    /// An operand stands at the end of that expression.
    may_end: bool,
}

/// What a token does in the innermost construct.
#[derive(Clone, Copy, Debug, PartialEq, Eq)]
enum Change {
    /// It is an operand, or begins one that is whole where the construct in it ends.
    Operand,
    /// It ends an expression.
    End,
    Operate,
    Access,
    /// It counts itself.
    Weigh,
    Box,
    Catch,
}

/// A construct in which nothing is read.
fn opened(weight: u32, counts_boxes: bool) -> Open
    ensures { open_of result ≡ opened weight counts_boxes }
{
    Open {
        weight,
        counts_boxes,
        operators: 0,
        may_end: false,
    }
}

fn at_operand(construct: Open) -> Open
    ensures { open_of result ≡ at_operand (open_of construct) }
{
    let operators = if construct.may_end {
        0
    } else {
        construct.operators
    };
    Open {
        operators,
        may_end: true,
        ..construct
    }
}

fn at_end(construct: Open) -> Open
    ensures { open_of result ≡ at_end (open_of construct) }
{
    Open {
        operators: 0,
        may_end: false,
        ..construct
    }
}

fn operating(construct: Open) -> Open
    requires { construct.operators ≤ depth_limit }
    ensures { open_of result ≡ operating (open_of construct) }
{
    Open {
        operators: construct.operators + 1,
        may_end: false,
        ..construct
    }
}

fn accessing(construct: Open) -> Open
    ensures { open_of result ≡ accessing (open_of construct) }
{
    if construct.may_end {
        at_end(construct)
    } else {
        construct
    }
}

fn weighing(construct: Open) -> Open
    requires { construct.weight ≤ depth_limit }
    ensures { open_of result ≡ weighing (open_of construct) }
{
    let ended = at_end(construct);
    Open {
        weight: construct.weight + 1,
        ..ended
    }
}

fn boxing(construct: Open) -> Open
    requires { construct.weight ≤ depth_limit }
    ensures { open_of result ≡ boxing (open_of construct) }
{
    if construct.counts_boxes {
        weighing(construct)
    } else {
        at_end(construct)
    }
}

fn catching(construct: Open) -> Open
    ensures { open_of result ≡ catching (open_of construct) }
{
    let ended = at_end(construct);
    Open {
        counts_boxes: true,
        ..ended
    }
}

fn changed(construct: Open, change: Change) -> Open
    requires { construct.weight + construct.operators ≤ depth_limit }
    ensures { open_of result ≡ change_by change (open_of construct) }
{
    match change {
        Change::Operand => at_operand(construct),
        Change::End => at_end(construct),
        Change::Operate => operating(construct),
        Change::Access => accessing(construct),
        Change::Weigh => weighing(construct),
        Change::Box => boxing(construct),
        Change::Catch => catching(construct),
    }
}

/// The constructs that are open, with the sum of what they count for.
#[derive(Drop)]
pub struct Depth {
    opens: Stack<Open>,
    sum: u32,
}

impl Model for Depth {
    ghost use Rattle.open_depth.specs.Depths as depths;
    ghost use Rattle.open_depth.specs.Codes.{opens_code};

    ghost Value = { depths.Opens };

    ghost coded = { opens_code };

    ghost view = { λ d. depths.opens_of d.opens };

    ghost invariant = { λ d. depths.IsSum d.sum d.opens };
}

impl Depth {
    /// Only the text is open.
    pub fn new(alloc: Global) -> Result<Depth, AllocError>
        ensures { IfOk result (λ d. d ≡ text_open) }
    {
        let mut opens = Stack::new(alloc);
        opens.push(opened(0, false))?;
        Ok(Depth { opens, sum: 0 })
    }

    /// Whether a token at this depth lies too deep.
    pub fn is_too_deep(&self) -> bool
        ensures { result ≡ nat_lt depth_limit (depth_of self.now) }
    {
        self.sum > DEPTH_LIMIT
    }

    /// Takes one token more.
    pub fn take(&mut self, token: Token) -> Result<(), AllocError>
        requires { depth_of self.old ≤ depth_limit }
        ensures { OnOk result (self.new ≡ open_with self.old token) }
    {
        match token {
            Token::Label { .. }
            | Token::OpenParen { .. }
            | Token::OpenBracket { .. }
            | Token::OpenBrace { .. }
            | Token::Local { .. }
            | Token::If { .. }
            | Token::Thread { .. }
            | Token::Try
            | Token::Proc { .. }
            | Token::Fun { .. }
            | Token::Choice { .. }
            | Token::Raise { .. } => self.begin(false),
            Token::Case { .. } => self.begin(true),
            Token::CloseParen | Token::CloseBracket | Token::CloseBrace | Token::End => self.end(),
            Token::Infix { .. } | Token::Bar | Token::Hash | Token::Dot => {
                self.change(Change::Operate)
            }
            Token::Var { .. }
            | Token::Any { .. }
            | Token::Int { .. }
            | Token::String { .. }
            | Token::Literal { .. }
            | Token::Fail { .. }
            | Token::Dollar => self.change(Change::Operand),
            Token::At { .. } => self.change(Change::Access),
            Token::Box => self.change(Change::Box),
            Token::ElseIf => self.change(Change::Weigh),
            Token::Catch => self.change(Change::Catch),
            _ => self.change(Change::End),
        }
    }

    /// Takes out the innermost construct.
    fn take_innermost(&mut self) -> Option<Open>
        ensures some { IfSome result (λ o. self.old ≡ open_of o ∷ self.new) }
        ensures none { IfNone result (self.old ≡ []) }
        ensures empty { IfNone result (self.new ≡ []) }
    {
        let innermost = self.opens.pop()?;
        self.sum -= innermost.weight + innermost.operators;
        Some(innermost)
    }

    fn put(&mut self, construct: Open) -> Result<(), AllocError>
        requires { depth_of self.old + (construct.weight + construct.operators) ≤ suc depth_limit }
        ensures { OnOk result (self.new ≡ open_of construct ∷ self.old) }
    {
        self.opens.push(construct)?;
        self.sum += construct.weight + construct.operators;
        Ok(())
    }

    /// The innermost construct goes on.
    fn change(&mut self, change: Change) -> Result<(), AllocError>
        requires { depth_of self.old ≤ depth_limit }
        ensures { OnOk result (self.new ≡ innermost (change_by change) self.old) }
    {
        let Some(innermost) = self.take_innermost() else {
            return Ok(());
        };
        self.put(changed(innermost, change))
    }

    /// A construct begins.
    #[tactic(auto, using(crate::proofs::DepthLaws::operand_no_deeper))]
    fn begin(&mut self, counts_boxes: bool) -> Result<(), AllocError>
        requires { depth_of self.old ≤ depth_limit }
        ensures { OnOk result (self.new ≡ opening counts_boxes self.old) }
    {
        self.change(Change::Operand)?;
        self.put(opened(1, counts_boxes))
    }

    /// The innermost construct ends.
    fn end(&mut self) -> Result<(), AllocError>
        requires { depth_of self.old ≤ depth_limit }
        ensures { OnOk result (self.new ≡ closing self.old) }
    {
        let Some(innermost) = self.take_innermost() else {
            return Ok(());
        };
        match self.opens.top() {
            Some(_) => Ok(()),
            None => self.put(at_end(innermost)),
        }
    }
}
