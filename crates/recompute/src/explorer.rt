//! Goes to nodes by their paths, from those that it has solved before.
ghost use Rattle.std.specs.Prelude.{◌≡◌, ◌≢◌, ◌<◌, [], ◌∷◌, ℕ, List, None, IfOk, length, option_copied};
ghost use Rattle.oz_search.specs.Nodes.{Maker};
ghost use Rattle.oz_semantics.specs.declared.configuration.Configuration.{Configuration};
ghost use Rattle.recompute.specs.Origins.{Origin, met_by};
ghost use Rattle.recompute.specs.Ways.{IsWay, rest_behind, rest_of, met_on, answer_of, Goes};

use crate::source::Source;
use crate::waypoint::{Waypoint, opened, solved};
use node_pool::{Path, SearchKind};
use oz_search::{Kind, Report};
use std::alloc::{AllocError, Global};
use std::marker::Model;

/// What there is at a path. The shortest prefix that is no node, or needs too many steps, decides.
#[derive(Drop)]
pub enum Solved<L> {
    /// A node.
    Node(Report<L>),
    /// The node at the prefix of this length has more own steps than the fuel.
    OutOfFuel { at: usize },
    /// This branch of the path, counted from 1, takes no alternative of the node before it.
    NotANode { at: usize },
}

/// Goes to any node of a tree. It keeps the machines of the nodes on its way to the last one, each as it came to rest, so that a
/// path is run only from where it leaves that way. Contracts see where the search starts.
#[derive(Drop)]
pub struct Explorer<T: Source> {
    source: T,
    /// From the root on.
    way: Vec<Waypoint<<T::Kind as SearchKind>::Branch, <T::Kind as SearchKind>::Leaf>>,
}

impl<T: Source> Model for Explorer<T> {
    ghost use Rattle.recompute.specs.Ways.{IsWay};

    ghost Value = { T };

    ghost view = { λ e. e.source };

    ghost invariant = { λ e. IsWay T.Kind.search (T.maker e.source) (T.origin e.source) e.way.items };
}

/// What is left of a path behind these nodes, if it leads through them, and none has more own steps than the fuel.
fn rest_behind<'a, K: SearchKind>(
    way: &[Waypoint<K::Branch, K::Leaf>],
    path: &'a [K::Branch],
    fuel: u64,
) -> Option<&'a [K::Branch]>
    ensures { option_copied result ≡ rest_behind K.search fuel way.now path.now }
{
    let mut nodes = way;
    let mut rest = path;
    'nodes: while let Some((node, further)) = nodes.split_first() {
        let (branch, others) = rest.split_first()?;
        if !K::compare(node.branch, *branch).is_eq() || node.report.steps > fuel {
            return None;
        }
        nodes = further;
        rest = others;
    }
    Some(rest)
}

/// The same of a way from the root.
fn rest_of<'a, K: SearchKind>(
    way: &[Waypoint<K::Branch, K::Leaf>],
    path: &'a [K::Branch],
    fuel: u64,
) -> Option<&'a [K::Branch]>
    ensures { option_copied result ≡ rest_of K.search fuel way.now path.now }
{
    match way.split_first() {
        None => Some(path),
        Some((root, further)) => {
            if root.report.steps > fuel {
                return None;
            }
            rest_behind::<K>(further, path, fuel)
        }
    }
}

fn let_go<B: Drop, L: Drop>(_node: Waypoint<B, L>) {}

/// Takes the last node off the way.
fn drop_last<K: SearchKind>(way: &mut Vec<Waypoint<K::Branch, K::Leaf>>)
    requires { way.old.items ≢ [] }
    ensures way { (m : Maker K.Branch K.Leaf Configuration) (o : Origin) → IsWay K.search m o way.old.items → IsWay K.search m o way.new.items }
    ensures shorter { length way.new.items < length way.old.items }
{
    let Some(node) = way.pop() else {
        unreachable!()
    };
    let_go(node);
}

/// Goes back to where the path leaves the way, and gives what is left of the path.
fn go_back<'a, T: Source>(
    source: &T,
    way: &mut Vec<Waypoint<<T::Kind as SearchKind>::Branch, <T::Kind as SearchKind>::Leaf>>,
    path: &'a [<T::Kind as SearchKind>::Branch],
    fuel: u64,
) -> &'a [<T::Kind as SearchKind>::Branch]
    requires { IsWay T.Kind.search (T.maker source.now) (T.origin source.now) way.old.items }
    ensures way { IsWay T.Kind.search (T.maker source.now) (T.origin source.now) way.new.items }
    ensures rest { met_on T.Kind.search (T.maker source.now) (T.origin source.now) fuel way.new.items result.now ≡ met_by T.Kind.search (T.maker source.now) (T.origin source.now) fuel path.now }
{
    let _source = source;
    'nodes: loop {
        match rest_of::<T::Kind>(way.as_slice(), path, fuel) {
            Some(rest) => return rest,
            None => drop_last::<T::Kind>(way),
        }
    }
}

/// Solves the root, if the way has not begun.
fn begin<T: Source>(
    alloc: Global,
    source: &T,
    way: &mut Vec<Waypoint<<T::Kind as SearchKind>::Branch, <T::Kind as SearchKind>::Leaf>>,
    fuel: u64,
) -> Result<Option<Solved<<T::Kind as SearchKind>::Leaf>>, AllocError>
    requires { IsWay T.Kind.search (T.maker source.now) (T.origin source.now) way.old.items }
    ensures way { IsWay T.Kind.search (T.maker source.now) (T.origin source.now) way.new.items }
    ensures begun { IfOk result (λ stopped. stopped ≡ None → way.new.items ≢ []) }
    ensures goes { (p : List T.Kind.Branch) → IfOk result (Goes T.Kind.search (T.maker source.now) (T.origin source.now) fuel (met_on T.Kind.search (T.maker source.now) (T.origin source.now) fuel way.old.items p) way.new.items p) }
{
    if !way.as_slice().is_empty() {
        return Ok(None);
    }
    let machine = source.frozen().machine(alloc)?;
    let Some(root) = solved(alloc, source, T::Kind::free(0), machine, fuel)? else {
        return Ok(Some(Solved::OutOfFuel { at: 0 }));
    };
    way.push(root)?;
    Ok(None)
}

/// Goes on by a branch of the last node.
fn go_down<T: Source>(
    alloc: Global,
    source: &T,
    way: &mut Vec<Waypoint<<T::Kind as SearchKind>::Branch, <T::Kind as SearchKind>::Leaf>>,
    branch: <T::Kind as SearchKind>::Branch,
    fuel: u64,
) -> Result<Option<Solved<<T::Kind as SearchKind>::Leaf>>, AllocError>
    requires way { IsWay T.Kind.search (T.maker source.now) (T.origin source.now) way.old.items }
    requires begun { way.old.items ≢ [] }
    ensures way { IsWay T.Kind.search (T.maker source.now) (T.origin source.now) way.new.items }
    ensures begun { way.new.items ≢ [] }
    ensures goes { (p : List T.Kind.Branch) → IfOk result (Goes T.Kind.search (T.maker source.now) (T.origin source.now) fuel (met_on T.Kind.search (T.maker source.now) (T.origin source.now) fuel way.old.items (branch ∷ p)) way.new.items p) }
{
    let nodes = way.as_slice();
    let at = nodes.len();
    let Some(node) = nodes.last() else {
        unreachable!()
    };
    let Some(machine) = opened(alloc, source, node, branch)? else {
        return Ok(Some(Solved::NotANode { at }));
    };
    let Some(child) = solved(alloc, source, branch, machine, fuel)? else {
        return Ok(Some(Solved::OutOfFuel { at }));
    };
    way.push(child)?;
    Ok(None)
}

/// What is known of the last node. A leaf is taken off the way.
fn last_report<K: SearchKind>(
    way: &mut Vec<Waypoint<K::Branch, K::Leaf>>,
) -> Result<Report<K::Leaf>, AllocError>
    requires { way.old.items ≢ [] }
    ensures way { (m : Maker K.Branch K.Leaf Configuration) (o : Origin) → IsWay K.search m o way.old.items → IsWay K.search m o way.new.items }
    ensures report { (m : Maker K.Branch K.Leaf Configuration) (o : Origin) (fuel : ℕ) → IfOk result (λ report. Solved.Node report ≡ answer_of (met_on K.search m o fuel way.old.items [])) }
{
    let Some(node) = way.pop() else {
        unreachable!()
    };
    let Waypoint {
        branch,
        machine,
        report,
    } = node;
    let Report { kind, steps } = report;
    match kind {
        Kind::End(leaf) => Ok(Report {
            kind: Kind::End(leaf),
            steps,
        }),
        Kind::Alternatives(count) => {
            way.push(Waypoint {
                branch,
                machine,
                report: Report {
                    kind: Kind::Alternatives(count),
                    steps,
                },
            })?;
            Ok(Report {
                kind: Kind::Alternatives(count),
                steps,
            })
        }
    }
}

/// Goes along the path, from where it leaves the way.
fn walk<T: Source>(
    alloc: Global,
    source: &T,
    way: &mut Vec<Waypoint<<T::Kind as SearchKind>::Branch, <T::Kind as SearchKind>::Leaf>>,
    path: &[<T::Kind as SearchKind>::Branch],
    fuel: u64,
) -> Result<Solved<<T::Kind as SearchKind>::Leaf>, AllocError>
    requires { IsWay T.Kind.search (T.maker source.now) (T.origin source.now) way.old.items }
    ensures way { IsWay T.Kind.search (T.maker source.now) (T.origin source.now) way.new.items }
    ensures solved { IfOk result (λ solved. solved ≡ answer_of (met_by T.Kind.search (T.maker source.now) (T.origin source.now) fuel path.now)) }
{
    let mut rest = go_back(source, way, path, fuel);
    if let Some(stopped) = begin(alloc, source, way, fuel)? {
        return Ok(stopped);
    }
    'path: while let Some((branch, further)) = rest.split_first() {
        if let Some(stopped) = go_down(alloc, source, way, *branch, fuel)? {
            return Ok(stopped);
        }
        rest = further;
    }
    let report = last_report::<T::Kind>(way)?;
    Ok(Solved::Node(report))
}

impl<T: Source> Explorer<T> {
    /// One that has been nowhere yet.
    pub fn new(alloc: Global, source: &T) -> Result<Explorer<T>, AllocError>
        ensures { IfOk result (λ explorer. explorer ≡ source.now) }
    {
        Ok(Explorer {
            source: source.copy(alloc)?,
            way: Vec::new(alloc),
        })
    }

    /// What there is at the path, where each node on the way may take so many steps. A path that goes on from the last one, or
    /// leaves its way late, costs only what is new on it.
    pub fn solve(
        &mut self,
        alloc: Global,
        path: &Path<T::Kind>,
        fuel: u64,
    ) -> Result<Solved<<T::Kind as SearchKind>::Leaf>, AllocError>
        ensures solved { IfOk result (λ solved. solved ≡ answer_of (met_by T.Kind.search (T.maker self.old) (T.origin self.old) fuel path.now)) }
        ensures same { self.new ≡ self.old }
    {
        let Explorer { source, way } = self;
        walk(alloc, source, way, path.as_slice(), fuel)
    }
}
