//! The values of a leaf.
ghost use Rattle.std.specs.Prelude.{◌≡◌, ◌<◌, ◌/◌, ◌%◌, true, cond, IfOk, OnOk, option_copied, option_map};
ghost use Rattle.shared_map.specs.Lookup.{choice, four_at, row_at, nothing, placed};
ghost use Rattle.shared_map.specs.Changes.{changed_at};

use crate::Change;
use oz_base::Copies;
use std::alloc::{AllocError, Global};
use std::mem;

/// Four values, at the numbers 0 to 3.
#[derive(Drop)]
pub struct Four<V> {
    a: Option<V>,
    b: Option<V>,
    c: Option<V>,
    d: Option<V>,
}

/// Four times four values, at the numbers 0 to 15.
#[derive(Drop)]
pub struct Row<V> {
    a: Four<V>,
    b: Four<V>,
    c: Four<V>,
    d: Four<V>,
}

/// One of two, by a test.
#[inline(always)]
fn either<'a, T>(first: bool, a: &'a T, b: &'a T) -> &'a T
    ensures { result.now ≡ cond first a.now b.now }
{
    if first { a } else { b }
}

/// One of four, by its number.
#[inline(always)]
pub fn one_of<'a, T>(index: u64, a: &'a T, b: &'a T, c: &'a T, d: &'a T) -> &'a T
    requires { index < 4 }
    ensures { result.now ≡ choice index a.now b.now c.now d.now d.now }
{
    let even = index & 1 == 0;
    either(index < 2, either(even, a, b), either(even, c, d))
}

impl<V> Four<V> {
    #[inline(always)]
    fn at(&self, index: u64) -> &Option<V>
        requires { index < 4 }
        ensures { result.now ≡ choice index self.now.a self.now.b self.now.c self.now.d self.now.d }
    {
        one_of(index, &self.a, &self.b, &self.c, &self.d)
    }

    #[inline(always)]
    fn get(&self, key: u64) -> Option<&V>
        requires { key < 4 }
        ensures { option_copied result ≡ four_at self.now key }
    {
        self.at(key).as_ref()
    }

    fn empty() -> Self
        ensures { four_at result ≡ nothing }
    {
        Four {
            a: None,
            b: None,
            c: None,
            d: None,
        }
    }

    #[inline(always)]
    fn swap(&mut self, key: u64, entry: &mut Option<V>)
        requires { key < 4 }
        ensures was { entry.new ≡ four_at self.old key }
        ensures after { four_at self.new ≡ placed key entry.old (four_at self.old) }
    {
        match key {
            0 => mem::swap(&mut self.a, entry),
            1 => mem::swap(&mut self.b, entry),
            2 => mem::swap(&mut self.c, entry),
            _ => mem::swap(&mut self.d, entry),
        }
    }
}

/// The four of a number below 16, and its number there.
#[inline(always)]
fn place(key: u64) -> (u64, u64)
    ensures index { result.0 ≡ key / 4 }
    ensures rest { result.1 ≡ key % 4 }
{
    (key >> 2, key & 3)
}

impl<V> Row<V> {
    #[inline(always)]
    fn at(&self, index: u64) -> &Four<V>
        requires { index < 4 }
        ensures { result.now ≡ choice index self.now.a self.now.b self.now.c self.now.d self.now.d }
    {
        one_of(index, &self.a, &self.b, &self.c, &self.d)
    }

    #[inline(always)]
    pub fn get(&self, key: u64) -> Option<&V>
        requires { key < 16 }
        ensures { option_copied result ≡ row_at self.now key }
    {
        let (index, rest) = place(key);
        self.at(index).get(rest)
    }

    pub fn new() -> Self
        ensures { row_at result ≡ nothing }
    {
        Row {
            a: Four::empty(),
            b: Four::empty(),
            c: Four::empty(),
            d: Four::empty(),
        }
    }

    /// Swaps what stands at the number with the entry.
    pub fn swap(&mut self, key: u64, entry: &mut Option<V>)
        requires { key < 16 }
        ensures was { entry.new ≡ row_at self.old key }
        ensures after { row_at self.new ≡ placed key entry.old (row_at self.old) }
    {
        let (index, rest) = place(key);
        match index {
            0 => self.a.swap(rest, entry),
            1 => self.b.swap(rest, entry),
            2 => self.c.swap(rest, entry),
            _ => self.d.swap(rest, entry),
        }
    }
}

fn copy_value<V: Copies>(alloc: Global, value: &Option<V>) -> Result<Option<V>, AllocError>
    ensures { IfOk result (λ copy. copy ≡ value.now) }
{
    match value {
        None => Ok(None),
        Some(value) => Ok(Some(value.copied(alloc)?)),
    }
}

impl<V: Copies> Four<V> {
    fn copy_to(&self, alloc: Global, to: &mut Self) -> Result<(), AllocError>
        ensures { OnOk result (to.new ≡ self.now) }
    {
        to.a = copy_value(alloc, &self.a)?;
        to.b = copy_value(alloc, &self.b)?;
        to.c = copy_value(alloc, &self.c)?;
        to.d = copy_value(alloc, &self.d)?;
        Ok(())
    }
}

impl<V: Copies> Row<V> {
    pub fn copy_to(&self, alloc: Global, to: &mut Self) -> Result<(), AllocError>
        ensures { OnOk result (to.new ≡ self.now) }
    {
        self.a.copy_to(alloc, &mut to.a)?;
        self.b.copy_to(alloc, &mut to.b)?;
        self.c.copy_to(alloc, &mut to.c)?;
        self.d.copy_to(alloc, &mut to.d)
    }
}

fn changed_value<V, C: Change<V>>(
    alloc: Global,
    change: &C,
    value: &Option<V>,
) -> Result<Option<V>, AllocError>
    ensures { IfOk result (λ after. after ≡ option_map (C.changed change.now) value.now) }
{
    match value {
        None => Ok(None),
        Some(value) => Ok(Some(change.changed(alloc, value)?)),
    }
}

fn keeps_value<V, C: Change<V>>(change: &C, value: &Option<V>) -> bool
    ensures { result ≡ true → option_map (C.changed change.now) value.now ≡ value.now }
{
    match value {
        None => true,
        Some(value) => change.keeps(value),
    }
}

impl<V> Four<V> {
    fn is_kept<C: Change<V>>(&self, change: &C) -> bool
        ensures { result ≡ true → changed_at (C.changed change.now) (four_at self.now) ≡ four_at self.now }
    {
        if !keeps_value(change, &self.a) {
            return false;
        }
        if !keeps_value(change, &self.b) {
            return false;
        }
        if !keeps_value(change, &self.c) {
            return false;
        }
        keeps_value(change, &self.d)
    }
}

impl<V> Row<V> {
    /// Whether no value gives way to another.
    pub fn is_kept<C: Change<V>>(&self, change: &C) -> bool
        ensures { result ≡ true → changed_at (C.changed change.now) (row_at self.now) ≡ row_at self.now }
    {
        if !self.a.is_kept(change) {
            return false;
        }
        if !self.b.is_kept(change) {
            return false;
        }
        if !self.c.is_kept(change) {
            return false;
        }
        self.d.is_kept(change)
    }
}

impl<V: Drop> Four<V> {
    fn changed<C: Change<V>>(&self, alloc: Global, change: &C) -> Result<Self, AllocError>
        ensures { IfOk result (λ after. four_at after ≡ changed_at (C.changed change.now) (four_at self.now)) }
    {
        Ok(Four {
            a: changed_value(alloc, change, &self.a)?,
            b: changed_value(alloc, change, &self.b)?,
            c: changed_value(alloc, change, &self.c)?,
            d: changed_value(alloc, change, &self.d)?,
        })
    }
}

impl<V: Drop> Row<V> {
    /// A row in which each value gives way to another.
    pub fn changed<C: Change<V>>(&self, alloc: Global, change: &C) -> Result<Self, AllocError>
        ensures { IfOk result (λ after. row_at after ≡ changed_at (C.changed change.now) (row_at self.now)) }
    {
        Ok(Row {
            a: self.a.changed(alloc, change)?,
            b: self.b.changed(alloc, change)?,
            c: self.c.changed(alloc, change)?,
            d: self.d.changed(alloc, change)?,
        })
    }
}
