//! The text of a full mode, piece by piece. Nothing of it is kept but the piece at hand; what is still to
//! come is known by the modes on the way to it and by the records mentioned so far.

ghost use Rattle.std.specs.Prelude.{◌≡◌, ◌+◌, ◌<◌, ◌^◌, [], ◌∷◌, ◌++◌, length, codes, decimal, IfOk, OnOk, OnSome, slice_get, MatchBool};
ghost use Rattle.rt_modes.specs.FullMode.{full_text, Mentions, mode_words, name_of, fields_of, spelled, fields_inside, with_one};
ghost use Rattle.rt_modes.specs.Left.{todo_words, IsEmpty, lead, text_of, begun, left, parameters_inside, parameters_after, fields_after, Puts};

use crate::mode::{Field, Mode, ModeTable};
use indexmap::IndexSet;
use itoa::Buffer;
use rt_words::{Boxed, List, Memory, Name};
use std::alloc::Global;

/// A part of a text that is still to come.
#[derive(Clone, Copy)]
pub enum Todo<'t> {
    Mode(&'t Mode),
    /// What follows a parameter or the opening parenthesis of PROC: the further parameters, each after a
    /// comma, the closing parenthesis and the result.
    Parameters(&'t [Mode], &'t Option<Boxed<Mode>>),
    /// A field's name, after its mode.
    Name(&'t Name),
    /// What follows a field or the opening parenthesis of a record: the further fields, each after a
    /// comma, and the closing parenthesis.
    Fields(&'t [Field]),
    /// A data brick of these fields.
    Data(&'t [Field]),
}

/// The text of a full mode, as far as it is still to come.
#[derive(Drop)]
pub struct Pieces<'t> {
    table: &'t ModeTable,
    /// The parts that are still to come, the next last.
    todo: List<Todo<'t>>,
    /// The numbers of the records mentioned so far, in the order of their first mention.
    order: IndexSet<u16>,
    /// How many of these have been written behind WHERE.
    place: usize,
}

impl<'t> Pieces<'t> {
    /// A text over the records of `table` of which nothing is to come.
    fn new(alloc: Global, table: &'t ModeTable) -> Result<Pieces<'t>, Memory>
        ensures { IfOk result (λ p. IsEmpty p table.now) }
    {
        Ok(Pieces {
            table,
            todo: List::new(alloc, 0)?,
            order: IndexSet::new(alloc),
            place: 0,
        })
    }

    /// The full mode of what is to come first.
    pub fn of(alloc: Global, table: &'t ModeTable, first: Todo<'t>) -> Result<Pieces<'t>, Memory>
        ensures { IfOk result (λ p. text_of p ≡ full_text table.now (todo_words first.entry)) }
    {
        let mut pieces = Pieces::new(alloc, table)?;
        pieces.todo.push(first)?;
        Ok(pieces)
    }

    /// Appends the next piece to `piece`; false where nothing is left.
    pub fn next(&mut self, piece: &mut Vec<u8>) -> Result<bool, Memory>
        ensures table { self.new.table.now ≡ self.old.table.now }
        ensures piece { IfOk result (λ some. MatchBool some (Puts self.old.table.now (left self.old) (left self.new) piece.old.items piece.new.items) (left self.old ≡ [])) }
    {
        match self.todo.pop() {
            Some(Todo::Mode(mode)) => self.begin_mode(mode, piece)?,
            Some(Todo::Parameters(rest, answer)) => self.go_on_with_parameters(
                rest, answer, piece,
            )?,
            Some(Todo::Name(name)) => {
                piece.extend_from_slice(b" ")?;
                piece.extend_from_slice(name.as_slice())?;
            }
            Some(Todo::Fields(rest)) => self.go_on_with_fields(rest, piece)?,
            Some(Todo::Data(fields)) => {
                piece.extend_from_slice(b"DATA(")?;
                self.push_fields(fields)?;
            }
            None => return self.begin_record(piece),
        }
        Ok(true)
    }

    fn begin_mode(&mut self, mode: &'t Mode, piece: &mut Vec<u8>) -> Result<(), Memory>
        ensures table { self.new.table.now ≡ self.old.table.now }
        ensures piece { OnOk result (Puts self.old.table.now (begun self.old (mode_words mode.now)) (left self.new) piece.old.items piece.new.items) }
    {
        match mode {
            Mode::Byte => piece.extend_from_slice(b"BYTE")?,
            Mode::Int => piece.extend_from_slice(b"INT")?,
            Mode::Frac => piece.extend_from_slice(b"FRAC")?,
            Mode::Label => piece.extend_from_slice(b"LABEL")?,
            Mode::Ref(of) => {
                piece.extend_from_slice(b"REF ")?;
                self.todo.push(Todo::Mode(of.get()))?;
            }
            Mode::RefArray(of) => {
                piece.extend_from_slice(b"REF ARRAY ")?;
                self.todo.push(Todo::Mode(of.get()))?;
            }
            Mode::Array(length, of) => {
                put_array(*length, piece)?;
                self.todo.push(Todo::Mode(of.get()))?;
            }
            Mode::Record(number) => self.mention(*number, piece)?,
            Mode::Proc(parameters, answer) => {
                piece.extend_from_slice(b"PROC(")?;
                self.push_parameters(parameters.as_slice(), answer)?;
            }
        }
        Ok(())
    }

    fn mention(&mut self, number: u16, piece: &mut Vec<u8>) -> Result<(), Memory>
        ensures table { self.new.table.now ≡ self.old.table.now }
        ensures piece { OnOk result (Puts self.old.table.now (begun self.old (Mentions number ∷ [])) (left self.new) piece.old.items piece.new.items) }
    {
        let record = match self.table.records.get(usize::from(number)) {
            Some(record) => record,
            None => return Ok(()),
        };
        know(&mut self.order, number)?;
        piece.extend_from_slice(record.name.as_slice())?;
        Ok(())
    }

    fn push_parameters(
        &mut self,
        parameters: &'t [Mode],
        answer: &'t Option<Boxed<Mode>>,
    ) -> Result<(), Memory>
        ensures table { self.new.table.now ≡ self.old.table.now }
        ensures words { OnOk result (left self.new ≡ begun self.old (parameters_inside parameters.now answer.now)) }
    {
        match parameters.split_first() {
            None => self.todo.push(Todo::Parameters(&[], answer))?,
            Some((first, rest)) => {
                self.todo.push(Todo::Parameters(rest, answer))?;
                self.todo.push(Todo::Mode(first))?;
            }
        }
        Ok(())
    }

    fn go_on_with_parameters(
        &mut self,
        rest: &'t [Mode],
        answer: &'t Option<Boxed<Mode>>,
        piece: &mut Vec<u8>,
    ) -> Result<(), Memory>
        ensures table { self.new.table.now ≡ self.old.table.now }
        ensures piece { OnOk result (Puts self.old.table.now (begun self.old (parameters_after rest.now answer.now)) (left self.new) piece.old.items piece.new.items) }
    {
        if !rest.is_empty() {
            piece.extend_from_slice(b",")?;
            return self.push_parameters(rest, answer);
        }
        match answer {
            None => piece.extend_from_slice(b")")?,
            Some(mode) => {
                piece.extend_from_slice(b") ")?;
                self.todo.push(Todo::Mode(mode.get()))?;
            }
        }
        Ok(())
    }

    fn push_fields(&mut self, fields: &'t [Field]) -> Result<(), Memory>
        ensures table { self.new.table.now ≡ self.old.table.now }
        ensures words { OnOk result (left self.new ≡ begun self.old (fields_inside fields.now)) }
    {
        match fields.split_first() {
            None => self.todo.push(Todo::Fields(&[]))?,
            Some((first, rest)) => {
                self.todo.push(Todo::Fields(rest))?;
                self.todo.push(Todo::Name(&first.name))?;
                self.todo.push(Todo::Mode(&first.mode))?;
            }
        }
        Ok(())
    }

    fn go_on_with_fields(&mut self, rest: &'t [Field], piece: &mut Vec<u8>) -> Result<(), Memory>
        ensures table { self.new.table.now ≡ self.old.table.now }
        ensures piece { OnOk result (Puts self.old.table.now (begun self.old (fields_after rest.now)) (left self.new) piece.old.items piece.new.items) }
    {
        if rest.is_empty() {
            piece.extend_from_slice(b")")?;
            return Ok(());
        }
        piece.extend_from_slice(b",")?;
        self.push_fields(rest)
    }

    /// The number of the record whose definition comes next.
    fn next_record(&self) -> Option<u16>
        ensures value { result ≡ slice_get self.now.order.keys self.now.place }
        ensures within { OnSome result (self.now.place + 1 < 2 ^ 64) }
    {
        self.order.as_slice().get(self.place).copied()
    }

    fn begin_record(&mut self, piece: &mut Vec<u8>) -> Result<bool, Memory>
        ensures table { self.new.table.now ≡ self.old.table.now }
        ensures piece { self.old.todo ≡ [] → IfOk result (λ some. MatchBool some (Puts self.old.table.now (left self.old) (left self.new) piece.old.items piece.new.items) (left self.old ≡ [])) }
    {
        let number = match self.next_record() {
            Some(number) => number,
            None => return Ok(false),
        };
        let (name, fields) = record(self.table, number);
        piece.extend_from_slice(lead(self.place))?;
        piece.extend_from_slice(name)?;
        piece.extend_from_slice(b"(")?;
        self.place += 1;
        self.push_fields(fields)?;
        Ok(true)
    }
}

/// One more record is known, unless it is already.
fn know(order: &mut IndexSet<u16>, number: u16) -> Result<(), Memory>
    ensures { OnOk result (order.new.keys ≡ with_one order.old.keys number) }
{
    match order.insert(number) {
        Ok(_) => Ok(()),
        Err(_) => Err(Memory),
    }
}

/// What stands before the definition of a record, by its place among them.
fn lead(place: usize) -> &'static [u8]
    ensures { result.now ≡ lead place }
{
    if place == 0 { b" WHERE " } else { b"," }
}

/// The name and the fields of a record; none where the table lacks it.
fn record(table: &ModeTable, number: u16) -> (&[u8], &[Field])
    ensures name { result.0.now ≡ name_of table.now number }
    ensures fields { result.1.now ≡ fields_of table.now number }
{
    match table.records.get(usize::from(number)) {
        Some(record) => (record.name.as_slice(), record.fields.as_slice()),
        None => (&[], &[]),
    }
}

fn put_array(length: u16, piece: &mut Vec<u8>) -> Result<(), Memory>
    ensures { OnOk result (piece.new.items ≡ piece.old.items ++ (codes "ARRAY(" ++ decimal length ++ codes ") ")) }
{
    let mut buffer = Buffer::new();
    piece.extend_from_slice(b"ARRAY(")?;
    piece.extend_from_slice(buffer.format(length).as_bytes())?;
    piece.extend_from_slice(b") ")?;
    Ok(())
}
