//! The store.
ghost use Rattle.std.specs.Prelude.{◌≡◌, ◌∷◌, ◌++◌, ◌⊎◌, [], List, true, false, length, slice_get, is_some, Some, Contains, IfOk, OnOk, OnErr, option_copied, option_map, option_and_then};
ghost use Rattle.oz_base.specs.Lists.{holds_of};
ghost use Rattle.oz_base.specs.Names.{ident_eq};
ghost use Rattle.oz_base.specs.declared.names.Ident.{Ident};
ghost use Rattle.oz_base.specs.declared.interval.Interval.{Interval};
ghost use Rattle.oz_domains.specs.Domains.{union, among, is_within, only};
ghost use Rattle.oz_semantics.specs.Store.{same, told_value, told_domain, value_of, domain_of, is_determined, is_consistent, is_news};
ghost use Rattle.oz_semantics.specs.Values.{integer, integer_in};
ghost use Rattle.oz_semantics.specs.declared.value.Tell.TheVariants.{Equal, Is, Within};
ghost use Rattle.oz_semantics.specs.declared.value.Value.{Value};
ghost use Rattle.term_store.specs.Bounds.{admits, Keeps};
ghost use Rattle.term_store.specs.Classes.{Table, IsTop, IsPartition, Likewise, Marks, UnitesFree, is_nothing, rank_in, Knows};
ghost use Rattle.term_store.specs.Closing.{Going};
ghost use Rattle.term_store.specs.Logs.{told_in};
ghost use Rattle.term_store.specs.Places.{value_place};
ghost use Rattle.term_store.specs.Telling.{IsTold};
ghost use Rattle.term_store.specs.VariableDomains.{set_of};

use crate::cell::Kept;
use crate::class_domain::{ClassDomain, domain_copy};
use crate::classes::{Classes, Top};
use crate::closing::{Draft, kept_of_two, zipped};
use crate::log::Log;
use crate::values::{fields_of, is_like};
use crate::variable_domain::{VariableDomain, of_told, of_value};
use fd_domain::{Domain, any_has_integer};
use oz_base::{Copies, Ident, Interval, Sequence, Shared, same_ident};
use oz_language::Constant;
use oz_semantics::{Tell, Value};
use std::alloc::{AllocError, Global};
use std::marker::Model;

/// What a space sees. Contracts see the list of everything that it and its ancestors were told; this is always consistent.
///
/// A look takes a time that grows with the logarithm of the number of variables alone. A value that is told of a class that has none, a
/// domain, and an equation of two classes of which one has neither a value nor a domain, are written in place, where no copy shares what
/// they change. All else is told to a copy, which then takes the place of the store. A domain takes the time and memory of the intervals
/// of the class's domain besides.
#[derive(Drop)]
pub struct Store {
    log: Log,
    classes: Classes,
}

impl Model for Store {
    ghost use Rattle.oz_semantics.specs.Store.{View};
    ghost use Rattle.std.specs.Prelude.{[]};
    ghost use Rattle.std.specs.Coded.{codes};
    ghost use Rattle.environments.specs.contracts.environment.Environment as environment;
    ghost use Rattle.term_store.specs.Closing.{Going};
    ghost use Rattle.term_store.specs.Logs.{told_in};

    ghost Value = { View };

    ghost coded = { Prim.hlevel (codes, environment.the_row.coded) };

    ghost view = { λ s. told_in s.log };

    ghost invariant = { λ s. Going (told_in s.log) s.classes [] };
}

impl Store {
    /// A store that was told nothing. It takes no memory.
    pub fn new(alloc: Global) -> Store
        ensures { result ≡ [] }
    {
        Store {
            log: Log::new(alloc),
            classes: Classes::new(alloc),
        }
    }

    /// How much it was told.
    pub fn len(&self) -> u64
        ensures { result ≡ length self.now }
    {
        self.log.len()
    }

    /// What it was told at this place, from 0.
    pub fn told_at(&self, place: u64) -> Option<&Tell>
        ensures { option_copied result ≡ slice_get self.now place }
    {
        self.log.get(place)
    }

    /// The classes of the variables that it makes equal.
    pub fn classes(&self) -> &Classes
        ensures { IsPartition self.now result.now }
    {
        &self.classes
    }

    /// Whether it makes two variables equal.
    pub fn same(&self, left: &Ident, right: &Ident) -> bool
        ensures { result ≡ same self.now left.now right.now }
    {
        self.classes.are_one(left, right)
    }

    /// Whether no other variable is equal to this one, as far as that is known without a look at what was told.
    pub fn is_alone(&self, variable: &Ident) -> bool
        ensures { result ≡ true → (other : Ident) → same self.now other variable.now ≡ true → other ≡ variable.now }
    {
        self.classes.is_alone(variable)
    }

    /// The place at which the first value of a variable's class was told, if it has one.
    pub fn value_place(&self, variable: &Ident) -> Option<u64>
        ensures { result ≡ value_place self.now variable.now }
    {
        self.classes.find(variable).first
    }

    /// The value that was told of a variable's class, if one was.
    pub fn told_value(&self, variable: &Ident) -> Option<&Value>
        ensures { option_copied result ≡ told_value self.now variable.now }
    {
        match self.value_place(variable) {
            None => None,
            Some(place) => self.log.value(place),
        }
    }

    /// The integers that all domains have which a variable's class was told, if it was told one.
    pub fn told_domain(&self, variable: &Ident) -> Option<&Domain>
        ensures { option_copied result ≡ told_domain self.now variable.now }
    {
        match self.classes.find(variable).domain {
            None => None,
            Some(domain) => Some(domain.get().domain()),
        }
    }

    /// The value of a variable, if it has one: one that was told, or the one integer of its domain.
    pub fn value(&self, variable: &Ident) -> Option<&Value>
        ensures { option_copied result ≡ value_of self.now variable.now }
    {
        let found = self.classes.find(variable);
        match found.first {
            None => only_value(found.domain),
            Some(place) => self.log.value(place),
        }
    }

    /// The domain of a variable: the integer that it is determined to, or what is left of the domains that its class was told. None where
    /// it has another value, and where its class was told neither a value nor a domain.
    pub fn domain(&self, variable: &Ident) -> Option<VariableDomain<'_>>
        ensures { option_map set_of result ≡ domain_of self.now variable.now }
    {
        match self.told_value(variable) {
            Some(value) => of_value(value),
            None => of_told(self.told_domain(variable)),
        }
    }

    pub fn is_determined(&self, variable: &Ident) -> bool
        ensures { result ≡ is_determined self.now variable.now }
    {
        self.value(variable).is_some()
    }

    /// Whether each integer that a variable may be is in one of these intervals; not where it may be more than integers.
    fn keeps_to(&self, variable: &Ident, intervals: &[Interval]) -> bool
        ensures { result ≡ holds_of (is_within intervals.now) (domain_of self.now variable.now) }
    {
        match self.told_value(variable) {
            Some(value) => value_within(value, intervals),
            None => domain_within(self.told_domain(variable), intervals),
        }
    }

    /// Whether it is news to it: a domain is none where the variable's class keeps to it already.
    pub fn is_news(&self, tell: &Tell) -> bool
        ensures { result ≡ is_news self.now tell.now }
    {
        match tell {
            Tell::Within {
                variable,
                intervals,
            } => !self.keeps_to(variable, intervals.as_slice()),
            Tell::Equal { .. } => true,
            Tell::Is { .. } => true,
        }
    }

    /// What it was told is consistent. Nothing: it holds a law.
    pub fn consistent(&self)
        ensures { is_consistent self.now ≡ true }
    {
        let _ = &self.classes;
    }

    /// Tells it what leads to pairs that are to be joined, on a copy that is put in its place at the end.
    fn close(
        &mut self,
        alloc: Global,
        tell: Tell,
        pending: Vec<(Ident, Ident)>,
        touched: &mut Vec<Ident>,
    ) -> Result<bool, AllocError>
        requires going { (t : Table) → Going self.old t [] → Going (self.old ++ tell ∷ []) t pending.items }
        requires valued { (x : Ident) (v : Value) → Contains (tell ∷ []) (Is x v) → is_some (told_value self.old x) ≡ true }
        requires known { (x : Ident) (is : List Interval) → Contains (tell ∷ []) (Within x is) → is_news self.old (Within x is) ≡ false }
        ensures told { IfOk result (IsTold self.old (tell ∷ []) self.new touched.old.items touched.new.items) }
        ensures err { OnErr result (self.new ≡ self.old) }
    {
        let mut draft = Draft {
            log: self.log.copy(alloc)?,
            classes: self.classes.copied(alloc)?,
            pending,
            touched: Vec::new(alloc),
        };
        draft.log.push(alloc, tell)?;
        if !draft.settle(alloc)? {
            return Ok(false);
        }
        touched.append(&mut draft.touched)?;
        self.log = draft.log;
        self.classes = draft.classes;
        Ok(true)
    }

    fn tell_equal(
        &mut self,
        alloc: Global,
        left: &Ident,
        right: &Ident,
        touched: &mut Vec<Ident>,
    ) -> Result<bool, AllocError>
        ensures told { IfOk result (IsTold self.old (Equal left.now right.now ∷ []) self.new touched.old.items touched.new.items) }
        ensures err { OnErr result (self.new ≡ self.old) }
    {
        let one = self.classes.find(left);
        let other = self.classes.find(right);
        if same_ident(one.root, other.root) {
            self.log.push(alloc, equation(alloc, left, right)?)?;
            return Ok(true);
        }
        if !one.has_nothing() && !other.has_nothing() {
            let pending = one_pair(alloc, left, right)?;
            return self.close(alloc, equation(alloc, left, right)?, pending, touched);
        }
        let a = one.top(alloc)?;
        let b = other.top(alloc)?;
        note_two(alloc, touched, left, right)?;
        let tell = equation(alloc, left, right)?;
        add_united(&mut self.log, &mut self.classes, alloc, &a, &b, tell)?;
        Ok(true)
    }

    /// Tells it a value of a variable whose class has a first value at this place.
    fn tell_again(
        &mut self,
        alloc: Global,
        variable: &Ident,
        value: &Value,
        place: u64,
        touched: &mut Vec<Ident>,
    ) -> Result<bool, AllocError>
        requires { value_place self.old variable.now ≡ Some place }
        ensures told { IfOk result (IsTold self.old (Is variable.now value.now ∷ []) self.new touched.old.items touched.new.items) }
        ensures err { OnErr result (self.new ≡ self.old) }
    {
        let Some(first) = self.log.value(place) else {
            return Err(AllocError);
        };
        if !is_like(first, value) {
            return Ok(false);
        }
        let pending = zipped(alloc, fields_of(first), fields_of(value))?;
        let tell = binding(alloc, variable, value)?;
        if pending.is_empty() {
            self.log.push(alloc, tell)?;
            return Ok(true);
        }
        self.close(alloc, tell, pending, touched)
    }

    fn tell_value(
        &mut self,
        alloc: Global,
        variable: &Ident,
        value: &Value,
        touched: &mut Vec<Ident>,
    ) -> Result<bool, AllocError>
        ensures told { IfOk result (IsTold self.old (Is variable.now value.now ∷ []) self.new touched.old.items touched.new.items) }
        ensures err { OnErr result (self.new ≡ self.old) }
    {
        let found = self.classes.find(variable);
        if let Some(place) = found.first {
            return self.tell_again(alloc, variable, value, place, touched);
        }
        if !has_value(found.domain, value) {
            return Ok(false);
        }
        let root = found.root.copied(alloc)?;
        let rank = found.rank;
        let kept = Kept {
            first: Some(self.log.len()),
            domain: domain_copy(alloc, found.domain)?,
        };
        let tell = binding(alloc, variable, value)?;
        touched.push(variable.copied(alloc)?)?;
        add_marked(
            &mut self.log,
            &mut self.classes,
            alloc,
            &root,
            rank,
            kept,
            tell,
        )?;
        Ok(true)
    }

    /// Tells it that a variable is in one of these intervals, which are those of the domain.
    fn tell_domain(
        &mut self,
        alloc: Global,
        variable: &Ident,
        intervals: &[Interval],
        domain: Domain,
        touched: &mut Vec<Ident>,
    ) -> Result<bool, AllocError>
        requires { union intervals.now ≡ domain }
        ensures told { IfOk result (IsTold self.old (Within variable.now intervals.now ∷ []) self.new touched.old.items touched.new.items) }
        ensures err { OnErr result (self.new ≡ self.old) }
    {
        let found = self.classes.find(variable);
        let kept = kept_besides(alloc, &self.log, found.first, found.domain, domain)?;
        let Some(kept) = kept else {
            return Ok(false);
        };
        let root = found.root.copied(alloc)?;
        let rank = found.rank;
        let tell = confinement(alloc, variable, intervals)?;
        touched.push(variable.copied(alloc)?)?;
        add_marked(
            &mut self.log,
            &mut self.classes,
            alloc,
            &root,
            rank,
            kept,
            tell,
        )?;
        Ok(true)
    }

    /// Tells it that a variable is in one of these intervals.
    fn tell_within(
        &mut self,
        alloc: Global,
        variable: &Ident,
        intervals: &[Interval],
        touched: &mut Vec<Ident>,
    ) -> Result<bool, AllocError>
        ensures told { IfOk result (IsTold self.old (Within variable.now intervals.now ∷ []) self.new touched.old.items touched.new.items) }
        ensures err { OnErr result (self.new ≡ self.old) }
    {
        if intervals.is_empty() {
            return Ok(false);
        }
        match Domain::from_intervals(alloc, intervals)? {
            None => Err(AllocError),
            Some(domain) => self.tell_domain(alloc, variable, intervals, domain, touched),
        }
    }

    fn tell_one(
        &mut self,
        alloc: Global,
        tell: &Tell,
        touched: &mut Vec<Ident>,
    ) -> Result<bool, AllocError>
        ensures told { IfOk result (IsTold self.old (tell.now ∷ []) self.new touched.old.items touched.new.items) }
        ensures err { OnErr result (self.new ≡ self.old) }
    {
        match tell {
            Tell::Equal { left, right } => self.tell_equal(alloc, left, right, touched),
            Tell::Is { variable, value } => self.tell_value(alloc, variable, value, touched),
            Tell::Within {
                variable,
                intervals,
            } => self.tell_within(alloc, variable, intervals.as_slice(), touched),
        }
    }

    /// Tells it one after another, on a copy that is put in its place at the end.
    fn tell_each(
        &mut self,
        alloc: Global,
        tells: &[Tell],
        touched: &mut Vec<Ident>,
    ) -> Result<bool, AllocError>
        ensures told { IfOk result (IsTold self.old tells.now self.new touched.old.items touched.new.items) }
        ensures err { OnErr result (self.new ≡ self.old) }
    {
        let _ = &self.classes;
        let mut copy = self.copied(alloc)?;
        for tell in tells {
            if !copy.tell_one(alloc, tell, touched)? {
                return Ok(false);
            }
        }
        *self = copy;
        Ok(true)
    }

    /// Tells it all of this, and notes variables of the classes that are joined, or told a value and had none, or a domain. False exactly
    /// where it is inconsistent with what was told before: then the store is as it was. An error is for lack of memory, or where the
    /// intervals of a domain do not ascend, with gaps between them, or have other integers than domain values; it leaves the store as it
    /// was too.
    pub fn tell(
        &mut self,
        alloc: Global,
        tells: &[Tell],
        touched: &mut Vec<Ident>,
    ) -> Result<bool, AllocError>
        ensures told { IfOk result (IsTold self.old tells.now self.new touched.old.items touched.new.items) }
        ensures err { OnErr result (self.new ≡ self.old) }
    {
        let _ = &self.classes;
        if tells.is_empty() {
            return Ok(true);
        }
        match tells {
            [tell] => self.tell_one(alloc, tell, touched),
            _ => self.tell_each(alloc, tells, touched),
        }
    }
}

/// The one integer of the domain, if there is one, and it has no other.
fn only_value(domain: Option<&Shared<ClassDomain>>) -> Option<&Value>
    ensures { option_copied result ≡ option_map integer (option_and_then only (option_copied domain.entry)) }
{
    match domain {
        None => None,
        Some(domain) => domain.get().value(),
    }
}

/// Whether the value is an integer of one of these intervals.
fn value_within(value: &Value, intervals: &[Interval]) -> bool
    ensures { result ≡ holds_of (among intervals.now) (integer_in value.now) }
{
    match value {
        Value::Constant(Constant::Int(integer)) => any_has_integer(intervals, *integer),
        _ => false,
    }
}

/// Whether each integer of the domain, if there is one, is in one of these intervals.
fn domain_within(domain: Option<&Domain>, intervals: &[Interval]) -> bool
    ensures { result ≡ holds_of (is_within intervals.now) (option_copied domain.entry) }
{
    match domain {
        None => false,
        Some(domain) => domain.is_within(intervals),
    }
}

/// Whether the value is an integer of the domain, if there is one.
fn has_value(domain: Option<&Shared<ClassDomain>>, value: &Value) -> bool
    ensures { result ≡ admits (option_copied domain.entry) value.now }
{
    match domain {
        None => true,
        Some(domain) => domain.get().has(value),
    }
}

fn confinement(alloc: Global, variable: &Ident, intervals: &[Interval]) -> Result<Tell, AllocError>
    ensures { IfOk result (λ tell. tell ≡ Within variable.now intervals.now) }
{
    Ok(Tell::Within {
        variable: variable.copied(alloc)?,
        intervals: Sequence::from_vec(Vec::from_slice(alloc, intervals)?),
    })
}

/// What is kept of a class whose first value is at the place, and that is told a domain besides the one that it has: nothing where no
/// integer is left, or the value is none that is.
fn kept_besides(
    alloc: Global,
    log: &Log,
    first: Option<u64>,
    one: Option<&Shared<ClassDomain>>,
    domain: Domain,
) -> Result<Option<Kept>, AllocError>
    ensures { IfOk result (Keeps (told_in log.now) first (option_copied one.entry) (Some domain)) }
{
    let more = Shared::new(alloc, ClassDomain::new(domain))?;
    kept_of_two(alloc, log, first, one, Some(&more))
}

/// Adds a tell, where this is kept from now on of the class that a variable of this rank stands for.
fn add_marked(
    log: &mut Log,
    classes: &mut Classes,
    alloc: Global,
    root: &Ident,
    rank: u8,
    kept: Kept,
    tell: Tell,
) -> Result<(), AllocError>
    requires top { IsTop classes.old root.now }
    requires rank { rank ≡ rank_in classes.old root.now }
    ensures told { OnOk result (told_in log.new ≡ told_in log.old ++ tell ∷ []) }
    ensures ok { OnOk result (Marks classes.old classes.new root.now kept) }
    ensures same { OnErr result (told_in log.new ≡ told_in log.old) }
    ensures err { OnErr result (classes.new ≡ classes.old) }
{
    log.make_room(alloc)?;
    classes.mark(alloc, root, rank, kept)?;
    log.put(tell);
    Ok(())
}

/// Adds a tell, and joins two classes, of one of which nothing is kept.
fn add_united(
    log: &mut Log,
    classes: &mut Classes,
    alloc: Global,
    left: &Top,
    right: &Top,
    tell: Tell,
) -> Result<(), AllocError>
    requires left { Knows classes.old left.now }
    requires right { Knows classes.old right.now }
    requires apart { ident_eq left.now.root right.now.root ≡ false }
    requires free { (is_nothing left.now.kept ≡ true) ⊎ (is_nothing right.now.kept ≡ true) }
    ensures told { OnOk result (told_in log.new ≡ told_in log.old ++ tell ∷ []) }
    ensures ok { OnOk result (UnitesFree classes.old classes.new left.now.root right.now.root) }
    ensures kept { OnErr result (told_in log.new ≡ told_in log.old) }
    ensures err { OnErr result (Likewise classes.old classes.new) }
{
    log.make_room(alloc)?;
    classes.unite_tops(alloc, left, right)?;
    log.put(tell);
    Ok(())
}

fn note_two(
    alloc: Global,
    touched: &mut Vec<Ident>,
    left: &Ident,
    right: &Ident,
) -> Result<(), AllocError>
    ensures { OnOk result (touched.new.items ≡ touched.old.items ++ left.now ∷ right.now ∷ []) }
{
    touched.push(left.copied(alloc)?)?;
    touched.push(right.copied(alloc)?)?;
    Ok(())
}

fn equation(alloc: Global, left: &Ident, right: &Ident) -> Result<Tell, AllocError>
    ensures { IfOk result (λ tell. tell ≡ Equal left.now right.now) }
{
    Ok(Tell::Equal {
        left: left.copied(alloc)?,
        right: right.copied(alloc)?,
    })
}

fn binding(alloc: Global, variable: &Ident, value: &Value) -> Result<Tell, AllocError>
    ensures { IfOk result (λ tell. tell ≡ Is variable.now value.now) }
{
    Ok(Tell::Is {
        variable: variable.copied(alloc)?,
        value: value.copied(alloc)?,
    })
}

fn one_pair(alloc: Global, left: &Ident, right: &Ident) -> Result<Vec<(Ident, Ident)>, AllocError>
    ensures { IfOk result (λ pairs. pairs.items ≡ (left.now, right.now) ∷ []) }
{
    let mut pairs = Vec::new(alloc);
    pairs.push((left.copied(alloc)?, right.copied(alloc)?))?;
    Ok(pairs)
}

impl Copies for Store {
    /// It shares what was told, but for the last tells, of which it copies at most 32. Besides it takes the time and memory of a few
    /// words for each space below the top of which a variable was told something.
    fn copied(&self, alloc: Global) -> Result<Self, AllocError> {
        Ok(Store {
            log: self.log.copy(alloc)?,
            classes: self.classes.copied(alloc)?,
        })
    }
}
