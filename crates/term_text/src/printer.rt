//! Printing a term node by node, with the records that are open on a stack of its own.
ghost use Rattle.std.specs.Prelude.{◌≡◌, ℕ, suc, ◌∷◌, ◌++◌, List, [], Some, None, position, nat_eq, codes, option_copied, OnOk, IfOk, MatchOption};
ghost use Rattle.std.specs.Fmt.{decimal};
ghost use Rattle.oz_semantics.specs.Store.{same, value_of};
ghost use Rattle.oz_language.specs.SimpleTexts.{simple_text};
ghost use Rattle.oz_semantics.specs.Texts.{form_in, undetermined_text};
ghost use Rattle.oz_semantics.specs.declared.value.Value.TheVariants as values;
ghost use Rattle.term_store.specs.Places.{value_place};
ghost use Rattle.term_text.specs.Operands.{ending, left_paren, right_paren, is_enclosed};
ghost use Rattle.term_text.specs.Pending.{variables_of, pending, with_rest, with_term, with_fields, with_record, with_value, after_node, after_move, Prints};
ghost use Rattle.term_text.specs.Placing.{ArePlaced};

use crate::domains::add_undetermined;
use crate::nesting::Nesting;
use crate::operands::{
    add_first_key, add_opening, ending, gap_before, keyed, left_paren, right_paren,
};
use fd_domain::Domain;
use oz_base::{Ident, Stack, Words};
use oz_language::{Constant, Form};
use oz_semantics::{Record, Value};
use simple_text::{add_decimal, add_simple, form_of, is_bars, is_chain};
use std::alloc::{AllocError, Global};
use term_store::{Store, place_law};

/// A term that is to be printed, and how many records can be opened from it on. If it stands in parentheses, `)` is still owed.
#[derive(Drop)]
pub struct Term<'a> {
    pub variable: &'a Ident,
    pub bound: u64,
    pub owed: bool,
}

/// A record of which some fields are printed: its form, whether `)` is owed behind it, the features and the fields that are left,
/// the next feature that needs no key, and how many records can be opened in it.
#[derive(Drop)]
pub struct Open<'a> {
    pub variable: &'a Ident,
    pub form: Form,
    pub owed: bool,
    pub features: &'a [Constant],
    pub fields: &'a [Ident],
    pub next: u64,
    pub bound: u64,
}

/// What is printed, and the records that are open, the innermost on top, with the places of their values.
#[derive(Drop)]
pub struct Printer<'a> {
    pub bytes: Vec<u8>,
    pub opened: Stack<Open<'a>>,
    pub nesting: Nesting,
}

impl<'a> Printer<'a> {
    /// Nothing is printed yet. It takes no memory.
    pub fn new(alloc: Global) -> Printer<'a>
        ensures bytes { result.bytes.items ≡ [] }
        ensures opened { result.opened ≡ [] }
        ensures nesting { result.nesting ≡ [] }
    {
        Printer {
            bytes: Vec::new(alloc),
            opened: Stack::new(alloc),
            nesting: Nesting::new(alloc),
        }
    }

    // How many records are open inside the one of a variable's class, if that is open: the value of the variable has this place.
    fn find_open(&self, store: &Store, variable: &Ident, place: u64) -> Option<usize>
        requires placed { ArePlaced store.now (variables_of self.now.opened) self.now.nesting }
        requires at { value_place store.now variable.now ≡ Some place }
        ensures { result ≡ position (same store.now variable.now) (variables_of self.now.opened) }
    {
        place_law();
        self.nesting.find(place)
    }

    // The form of a field of the innermost record.
    fn form_in(&self, words: &Words, store: &Store, variable: &Ident) -> Form
        requires { ArePlaced store.now (variables_of self.now.opened) self.now.nesting }
        ensures { result ≡ form_in words.now store.now (variables_of self.now.opened) variable.now }
    {
        let Some(Value::Record(shared)) = store.value(variable) else {
            return Form::Other;
        };
        let record = shared.get();
        place_law();
        let place = store.value_place(variable).unwrap();
        match self.find_open(store, variable, place) {
            None => form_of(words, record.label, record.features.as_slice()),
            Some(_) => Form::Other,
        }
    }

    // Whether a field of the innermost record stands in parentheses. The record is of this form.
    fn is_enclosed(
        &self,
        words: &Words,
        store: &Store,
        form: Form,
        first: bool,
        field: &Ident,
    ) -> bool
        requires { ArePlaced store.now (variables_of self.now.opened) self.now.nesting }
        ensures { result ≡ is_enclosed form first (form_in words.now store.now (variables_of self.now.opened) field.now) }
    {
        match form {
            Form::Bars => first && is_bars(self.form_in(words, store, field)),
            Form::Hashes => is_chain(self.form_in(words, store, field)),
            Form::Other => false,
        }
    }

    // A text that stands for a whole term, and `)` where it is owed.
    fn print_leaf(&mut self, text: &[u8], owed: bool) -> Result<(), AllocError>
        ensures bytes { OnOk result (self.new.bytes.items ≡ self.old.bytes.items ++ (text.now ++ right_paren owed)) }
        ensures opened { self.new.opened ≡ self.old.opened }
        ensures nesting { self.new.nesting ≡ self.old.nesting }
    {
        self.bytes.extend_from_slice(text)?;
        self.bytes.extend_from_slice(right_paren(owed))
    }

    // An integer or a literal, and `)` where it is owed.
    fn print_constant(
        &mut self,
        alloc: Global,
        words: &Words,
        constant: Constant,
        owed: bool,
    ) -> Result<(), AllocError>
        ensures bytes { OnOk result (self.new.bytes.items ≡ self.old.bytes.items ++ (simple_text words.now constant ++ right_paren owed)) }
        ensures opened { self.new.opened ≡ self.old.opened }
        ensures nesting { self.new.nesting ≡ self.old.nesting }
    {
        add_simple(alloc, words, constant, &mut self.bytes)?;
        self.bytes.extend_from_slice(right_paren(owed))
    }

    // A variable that is not determined, by its domain, if it has one, and `)` where it is owed.
    fn print_undetermined(
        &mut self,
        alloc: Global,
        domain: Option<&Domain>,
        owed: bool,
    ) -> Result<(), AllocError>
        ensures bytes { OnOk result (self.new.bytes.items ≡ self.old.bytes.items ++ (undetermined_text (option_copied domain.entry) ++ right_paren owed)) }
        ensures opened { self.new.opened ≡ self.old.opened }
        ensures nesting { self.new.nesting ≡ self.old.nesting }
    {
        add_undetermined(alloc, domain, &mut self.bytes)?;
        self.bytes.extend_from_slice(right_paren(owed))
    }

    // `^K`, where the enclosing record itself is 1, and `)` where it is owed.
    fn print_up(&mut self, alloc: Global, place: usize, owed: bool) -> Result<(), AllocError>
        ensures bytes { OnOk result (self.new.bytes.items ≡ self.old.bytes.items ++ ((codes "^" ++ decimal (suc place)) ++ right_paren owed)) }
        ensures opened { OnOk result (self.new.opened ≡ self.old.opened) }
        ensures nesting { OnOk result (self.new.nesting ≡ self.old.nesting) }
    {
        self.bytes.push(b'^')?;
        add_decimal(alloc, place as u128 + 1, &mut self.bytes)?;
        self.bytes.extend_from_slice(right_paren(owed))
    }

    // The end of the innermost record, which is no more on the stack.
    fn close(&mut self, form: Form, owed: bool) -> Result<(), AllocError>
        ensures bytes { OnOk result (self.new.bytes.items ≡ self.old.bytes.items ++ (ending form ++ right_paren owed)) }
        ensures opened { self.new.opened ≡ self.old.opened }
        ensures nesting { OnOk result ((place : ℕ) (places : List ℕ) → self.old.nesting ≡ place ∷ places → self.new.nesting ≡ places) }
    {
        self.print_leaf(ending(form), owed)?;
        self.nesting.pop();
        Ok(())
    }

    // The next field of a record, the first or a later one, and the record stays open; or the end of the record. Before the field
    // stand a gap, its key, and `(` where it needs one.
    fn next_field(
        &mut self,
        alloc: Global,
        words: &Words,
        store: &Store,
        innermost: Open<'a>,
        first: bool,
    ) -> Result<Option<Term<'a>>, AllocError>
        requires { ArePlaced store.now (innermost.variable.now ∷ variables_of self.old.opened) self.old.nesting }
        ensures written { IfOk result (λ next. Prints 0 self.old (with_rest first words.now store.now self.old.opened innermost.entry) self.new (after_node words.now store.now self.new.opened next)) }
        ensures placed { OnOk result (ArePlaced store.now (variables_of self.new.opened) self.new.nesting) }
        ensures closed { IfOk result (λ next. MatchOption next (self.new.opened ≡ self.old.opened) (λ term. Unit {0})) }
    {
        let form = innermost.form;
        let Some((field, fields)) = innermost.fields.split_first() else {
            self.close(form, innermost.owed)?;
            return Ok(None);
        };
        let bound = innermost.bound;
        self.bytes.extend_from_slice(gap_before(form, first))?;
        let (next, features) = add_first_key(
            alloc,
            words,
            innermost.features,
            innermost.next,
            &mut self.bytes,
        )?;
        self.opened.push(Open {
            variable: innermost.variable,
            form,
            owed: innermost.owed,
            features,
            fields,
            next,
            bound,
        })?;
        let owed = self.is_enclosed(words, store, form, first, field);
        self.bytes.extend_from_slice(left_paren(owed))?;
        Ok(Some(Term {
            variable: field,
            bound,
            owed,
        }))
    }

    // Opens a record, the value of a term, whose place is this, and gives its first field.
    fn open_record(
        &mut self,
        alloc: Global,
        words: &Words,
        store: &Store,
        term: &Term<'a>,
        place: u64,
        record: &'a Record,
    ) -> Result<Option<Term<'a>>, AllocError>
        requires closed { position (nat_eq place) self.old.nesting ≡ None }
        requires placed { ArePlaced store.now (variables_of self.old.opened) self.old.nesting }
        requires at { value_place store.now term.now.variable.now ≡ Some place }
        ensures written { IfOk result (λ next. Prints 1 self.old (with_fields words.now store.now self.old.opened term.now «record».now) self.new (after_node words.now store.now self.new.opened next)) }
        ensures placed { OnOk result (ArePlaced store.now (variables_of self.new.opened) self.new.nesting) }
    {
        let features = record.features.as_slice();
        let form = form_of(words, record.label, features);
        add_opening(words, form, record.label, &mut self.bytes)?;
        self.nesting.push(place)?;
        let open = Open {
            variable: term.variable,
            form,
            owed: term.owed,
            features: keyed(form, features),
            fields: record.fields.as_slice(),
            next: 1,
            bound: term.bound,
        };
        self.next_field(alloc, words, store, open, true)
    }

    // `^K` where the class of the term is open, and otherwise its record, which is opened.
    fn print_record(
        &mut self,
        alloc: Global,
        words: &Words,
        store: &Store,
        term: &Term<'a>,
        record: &'a Record,
    ) -> Result<Option<Term<'a>>, AllocError>
        requires placed { ArePlaced store.now (variables_of self.old.opened) self.old.nesting }
        requires told { value_of store.now term.now.variable.now ≡ Some (values.Record «record».now) }
        ensures written { IfOk result (λ next. Prints 1 self.old (with_record words.now store.now self.old.opened term.now «record».now) self.new (after_node words.now store.now self.new.opened next)) }
        ensures placed { OnOk result (ArePlaced store.now (variables_of self.new.opened) self.new.nesting) }
    {
        place_law();
        let place = store.value_place(term.variable).unwrap();
        match self.nesting.find(place) {
            None => self.open_record(alloc, words, store, term, place, record),
            Some(inside) => {
                self.print_up(alloc, inside, term.owed)?;
                Ok(None)
            }
        }
    }

    // Prints a node by its value. The bound of the term is here that of the terms inside it.
    fn print_value(
        &mut self,
        alloc: Global,
        words: &Words,
        store: &'a Store,
        term: &Term<'a>,
    ) -> Result<Option<Term<'a>>, AllocError>
        requires { ArePlaced store.now (variables_of self.old.opened) self.old.nesting }
        ensures written { IfOk result (λ next. Prints 1 self.old (with_value words.now store.now self.old.opened term.now) self.new (after_node words.now store.now self.new.opened next)) }
        ensures placed { OnOk result (ArePlaced store.now (variables_of self.new.opened) self.new.nesting) }
    {
        match store.value(term.variable) {
            None => {
                self.print_undetermined(alloc, store.told_domain(term.variable), term.owed)?;
                Ok(None)
            }
            Some(Value::Constant(constant)) => {
                self.print_constant(alloc, words, *constant, term.owed)?;
                Ok(None)
            }
            Some(Value::Record(record)) => self.print_record(
                alloc,
                words,
                store,
                term,
                record.get(),
            ),
            Some(Value::Name(_)) => {
                self.print_leaf(b"<name>", term.owed)?;
                Ok(None)
            }
            Some(Value::Procedure(_)) | Some(Value::Builtin(_)) => {
                self.print_leaf(b"<proc>", term.owed)?;
                Ok(None)
            }
            Some(Value::Cell(_)) => {
                self.print_leaf(b"<cell>", term.owed)?;
                Ok(None)
            }
            Some(Value::Port(_)) => {
                self.print_leaf(b"<port>", term.owed)?;
                Ok(None)
            }
            Some(Value::Space(_)) => {
                self.print_leaf(b"<space>", term.owed)?;
                Ok(None)
            }
        }
    }

    // Prints a node. Where that opens a record with fields, the first of them is the term that comes next.
    fn print(
        &mut self,
        alloc: Global,
        words: &Words,
        store: &'a Store,
        term: &Term<'a>,
    ) -> Result<Option<Term<'a>>, AllocError>
        requires { ArePlaced store.now (variables_of self.old.opened) self.old.nesting }
        ensures written { IfOk result (λ next. Prints 1 self.old (with_term words.now store.now self.old.opened term.now) self.new (after_node words.now store.now self.new.opened next)) }
        ensures placed { OnOk result (ArePlaced store.now (variables_of self.new.opened) self.new.nesting) }
    {
        let Some(bound) = term.bound.checked_sub(1) else {
            self.print_leaf(b"", term.owed)?;
            return Ok(None);
        };
        let inside = Term {
            variable: term.variable,
            bound,
            owed: term.owed,
        };
        self.print_value(alloc, words, store, &inside)
    }

    // Closes the records that have no field left, up to one that has. There is none at the end of the text.
    fn next_term(
        &mut self,
        alloc: Global,
        words: &Words,
        store: &Store,
    ) -> Result<Option<Term<'a>>, AllocError>
        requires { ArePlaced store.now (variables_of self.old.opened) self.old.nesting }
        ensures written { IfOk result (λ next. Prints 0 self.old (pending words.now store.now self.old.opened) self.new (after_move words.now store.now self.new.opened next)) }
        ensures placed { OnOk result (ArePlaced store.now (variables_of self.new.opened) self.new.nesting) }
    {
        while let Some(innermost) = self.opened.pop() {
            if let Some(term) = self.next_field(alloc, words, store, innermost, false)? {
                return Ok(Some(term));
            }
        }
        Ok(None)
    }

    /// Prints a node, and gives the term that comes next. There is none at the end of the text.
    pub fn step(
        &mut self,
        alloc: Global,
        words: &Words,
        store: &'a Store,
        term: &Term<'a>,
    ) -> Result<Option<Term<'a>>, AllocError>
        requires { ArePlaced store.now (variables_of self.old.opened) self.old.nesting }
        ensures written { IfOk result (λ next. Prints 1 self.old (with_term words.now store.now self.old.opened term.now) self.new (after_move words.now store.now self.new.opened next)) }
        ensures placed { OnOk result (ArePlaced store.now (variables_of self.new.opened) self.new.nesting) }
    {
        match self.print(alloc, words, store, term)? {
            Some(first) => Ok(Some(first)),
            None => self.next_term(alloc, words, store),
        }
    }
}
