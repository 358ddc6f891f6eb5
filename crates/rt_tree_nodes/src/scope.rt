//! What the nodes of a procedure may name.

ghost use Rattle.std.specs.Prelude.{◌≡◌, [], option_map, slice_get, nat_lt};
ghost use Rattle.std.specs.Option.{option_copied};
ghost use Rattle.rt_modes.specs.declared.mode.Mode.TheVariants as variant;
ghost use Rattle.rt_tree_nodes.specs.Code.{scope, place_found, mode_found};
ghost use Rattle.rt_tree_nodes.specs.Scopes.{scope_of, with_locals};
ghost use Rattle.rt_tree_nodes.specs.Typing.{local_found, item_found, Private};
ghost use Rattle.rt_tree_nodes.specs.Scopes.{only, faces, face, fields_at, items_of, field_at, field_mode, proc_mode, svc_mode, supplied_of};

use crate::brick::{Brick, BrickSort, Kind, Local, ModuleParts};
use crate::lent::{Found, Lent, ValueMode};
use crate::supplied::{Supplied, fields_of, is_errors, is_streams};
use rt_modes::{Field, Mode, RecordDef};

/// The records, bricks and strings of a module; the items of the task's own error data and streams, where the module
/// declares them as they are supplied; and the parameters and locals of a procedure.
#[derive(Clone, Copy)]
pub struct Scope<'a> {
    pub records: &'a [RecordDef],
    pub bricks: &'a [Brick],
    pub strings: usize,
    pub errors: Option<&'a [Field]>,
    pub streams: Option<&'a [Field]>,
    pub locals: &'a [Local],
}

impl<'a> Scope<'a> {
    /// The scope of the module's data. It goes over the bricks for those that are supplied.
    pub fn of(parts: &'a ModuleParts) -> Scope<'a>
        ensures { scope result ≡ scope_of parts.now }
    {
        Scope::with_supplied(parts, &Supplied::of(parts.bricks.as_slice()))
    }

    /// The scope of the module's data, where it is known which bricks are supplied. It takes constant time.
    pub fn with_supplied(parts: &'a ModuleParts, supplied: &Supplied) -> Scope<'a>
        ensures { supplied.now ≡ supplied_of parts.now.bricks → scope result ≡ scope_of parts.now }
    {
        let bricks = parts.bricks.as_slice();
        Scope {
            records: parts.modes.records.as_slice(),
            bricks,
            strings: parts.strings.len(),
            errors: fields_at(bricks, supplied.errors),
            streams: fields_at(bricks, supplied.streams),
            locals: &[],
        }
    }

    /// The same with the parameters and locals of a procedure.
    pub fn with_locals(&self, locals: &'a [Local]) -> Scope<'a>
        ensures { scope result ≡ with_locals (scope self.now) locals.now }
    {
        Scope { locals, ..*self }
    }

    /// The parameter or local `i`.
    pub fn local(&self, i: u16) -> Option<Found<'a>>
        ensures { place_found result ≡ option_map local_found (slice_get self.now.locals.now i) }
    {
        match self.locals.get(usize::from(i)) {
            None => None,
            Some(local) => match local {
                Local::Variable(mode) => Some(Found::Variable(mode)),
                Local::Loop => Some(Found::Loop),
            },
        }
    }

    /// Item `j` of data brick `b`, supplied ones apart.
    pub fn item(&self, b: u16, j: u16) -> Option<Found<'a>>
        ensures { place_found result ≡ item_found (faces self.now.bricks.now) b j }
    {
        let brick = self.bricks.get(usize::from(b))?;
        let mode = field_at(items_of(brick)?, j)?;
        Some(if matches!(brick.kind, Kind::Svc) {
            Found::Private(mode)
        } else {
            Found::Shared(Lent::Of(mode))
        })
    }

    /// An item of the task's own data.
    pub fn svc(&self, k: u8) -> Option<Found<'a>>
        ensures { place_found result ≡ option_map Private (svc_mode (scope self.now) k) }
    {
        match self.svc_mode(k) {
            None => None,
            Some(mode) => Some(Found::Private(mode)),
        }
    }

    /// The mode of procedure brick `b` as a value.
    pub fn procedure(&self, b: u16) -> Option<ValueMode<'a>>
        ensures { mode_found result ≡ proc_mode (faces self.now.bricks.now) b }
    {
        match self.proc_mode(b) {
            None => None,
            Some(mode) => Some(ValueMode::Of(Lent::Of(mode))),
        }
    }

    /// The mode of string `n` as a value.
    pub fn text(&self, n: u16) -> Option<ValueMode<'a>>
        ensures { mode_found result ≡ only (nat_lt n self.now.strings) (variant.RefArray variant.Byte) }
    {
        if usize::from(n) < self.strings {
            Some(ValueMode::Row(Lent::Byte))
        } else {
            None
        }
    }

    /// Record `r`.
    pub fn record(&self, r: u16) -> Option<&'a RecordDef>
        ensures { option_copied result ≡ slice_get self.now.records.now r }
    {
        self.records.get(usize::from(r))
    }

    /// The mode of field `k` of record `r`.
    pub fn field_mode(&self, r: u16, k: u16) -> Option<&'a Mode>
        ensures { option_copied result ≡ field_mode self.now.records.now r k }
    {
        let record = self.records.get(usize::from(r))?;
        field_at(record.fields.as_slice(), k)
    }

    /// The mode of procedure brick `b`.
    pub fn proc_mode(&self, b: u16) -> Option<&'a Mode>
        ensures { option_copied result ≡ proc_mode (faces self.now.bricks.now) b }
    {
        match &self.bricks.get(usize::from(b))?.sort {
            BrickSort::Proc(mode, _) => Some(mode),
            _ => None,
        }
    }

    /// The mode of an item of the task's own data.
    pub fn svc_mode(&self, k: u8) -> Option<&'a Mode>
        ensures { option_copied result ≡ svc_mode (scope self.now) k }
    {
        if k < 3 {
            field_at(self.errors?, u16::from(k))
        } else {
            field_at(self.streams?, u16::from(k - 3))
        }
    }
}

fn field_at(fields: &[Field], k: u16) -> Option<&Mode>
    ensures { option_copied result ≡ field_at fields.now k }
{
    match fields.get(usize::from(k)) {
        Some(field) => Some(&field.mode),
        None => None,
    }
}

/// The fields of the data brick at a number, if there is one.
fn fields_at(bricks: &[Brick], at: Option<usize>) -> Option<&[Field]>
    ensures { option_copied result ≡ fields_at (faces bricks.now) at }
{
    fields_of(bricks.get(at?)?)
}

/// The fields of a data brick that isn't supplied.
fn items_of(brick: &Brick) -> Option<&[Field]>
    ensures { option_copied result ≡ items_of (face brick.now) }
{
    if is_errors(brick) || is_streams(brick) {
        None
    } else {
        fields_of(brick)
    }
}
