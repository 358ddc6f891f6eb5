//! Which bricks and records fit.

ghost use Rattle.std.specs.Prelude.{◌≡◌, length, map};
ghost use Rattle.std.specs.List.{list_all};
ghost use Rattle.rt_tree_nodes.specs.Code as seen;
ghost use Rattle.rt_tree_nodes.specs.Scopes.{scope_of};
ghost use Rattle.rt_tree.specs.Modules as modules;

use crate::closing::is_closed;
use crate::fitting::{body, labels_end};
use crate::sight::{Next, Seen, Sight};
use crate::standing::{stands_alone, stands_passed};
use crate::starts::items_start;
use rt_modes::{Field, Mode, RecordDef};
use rt_tree_nodes::{
    Body, Brick, BrickSort, DataStart, Kind, Lent, Local, ModuleParts, ProcBody, Scope, Signature,
    ValueMode, same_mode,
};
use rt_words::Bytes;

/// Whether every node of a module fits, where the scope is that of its data.
pub(crate) fn every_node_fits(scope: &Scope<'_>, parts: &ModuleParts) -> bool
    requires { seen.scope scope.now ≡ scope_of parts.now }
    ensures { result ≡ modules.every_node_fits parts.now }
{
    records_stand(parts.modes.records.as_slice())
        && bricks_fit(scope, parts.bricks.as_slice())
        && are_short(parts.strings.as_slice())
}

fn records_stand(records: &[RecordDef]) -> bool
    ensures { result ≡ list_all (modules.record_stands (length records.now)) records.now }
{
    let count = records.len();
    for record in records {
        if !fields_stand(count, record.fields.as_slice()) {
            return false;
        }
    }
    true
}

fn fields_stand(records: usize, fields: &[Field]) -> bool
    ensures { result ≡ list_all (modules.field_stands records) fields.now }
{
    for field in fields {
        if !stands_alone(records, &field.mode) {
            return false;
        }
    }
    true
}

fn are_short(strings: &[Bytes]) -> bool
    ensures { result ≡ list_all modules.is_short strings.now }
{
    for string in strings {
        if string.len() > 8191 {
            return false;
        }
    }
    true
}

fn bricks_fit(scope: &Scope<'_>, bricks: &[Brick]) -> bool
    ensures { result ≡ list_all (modules.brick_fits (seen.scope scope.now)) bricks.now }
{
    for brick in bricks {
        if !brick_fits(scope, brick) {
            return false;
        }
    }
    true
}

fn brick_fits(scope: &Scope<'_>, brick: &Brick) -> bool
    ensures { result ≡ modules.brick_fits (seen.scope scope.now) brick.now }
{
    match &brick.sort {
        BrickSort::Proc(mode, procedure) => procedure_fits(scope, brick.kind, mode, procedure),
        BrickSort::Data(fields, starts) => {
            items_stand(scope.records.len(), brick, fields.as_slice())
                && data_starts(scope, brick.kind, fields.as_slice(), starts.as_slice())
        }
        BrickSort::Stack(words) => words_fit(brick.kind, *words),
    }
}

/// Whether the module itself has a brick of this kind.
fn is_here(kind: Kind) -> bool
    ensures { result ≡ modules.is_here kind }
{
    matches!(kind, Kind::Own | Kind::Ent)
}

fn procedure_fits(scope: &Scope<'_>, kind: Kind, mode: &Mode, procedure: &Option<ProcBody>) -> bool
    ensures { result ≡ modules.procedure_fits (seen.scope scope.now) kind mode.now procedure.now }
{
    match Lent::Of(mode).procedure() {
        None => false,
        Some(signature) => {
            stands_alone(scope.records.len(), mode) && body_fits(scope, kind, &signature, procedure)
        }
    }
}

fn body_fits(
    scope: &Scope<'_>,
    kind: Kind,
    signature: &Signature<'_>,
    procedure: &Option<ProcBody>,
) -> bool
    ensures { result ≡ modules.body_fits (seen.scope scope.now) kind (seen.signature_seen signature.now) procedure.now }
{
    match procedure {
        None => !is_here(kind),
        Some(procedure) => is_here(kind) && parts_fit(scope, signature, procedure),
    }
}

fn parts_fit(scope: &Scope<'_>, signature: &Signature<'_>, procedure: &ProcBody) -> bool
    ensures { result ≡ modules.proc_fits (seen.scope scope.now) signature.now.parameters.now (seen.mode_found signature.now.answer) procedure.now }
{
    let locals = procedure.locals.as_slice();
    parameters_first(signature.parameters, locals)
        && locals_stand(scope.records.len(), locals)
        && numbers_all(scope, signature, procedure)
        && (signature.answer.is_none() || is_closed(&procedure.body))
}

/// Whether the body fits, and its labels and locals are numbered to the last one.
fn numbers_all(scope: &Scope<'_>, signature: &Signature<'_>, procedure: &ProcBody) -> bool
    ensures { result ≡ modules.numbers_all (seen.scope scope.now) (length signature.now.parameters.now) (seen.mode_found signature.now.answer) procedure.now }
{
    let scope = scope.with_locals(procedure.locals.as_slice());
    match numbers_behind(&scope, signature, &procedure.body) {
        None => false,
        Some(next) => next.label == procedure.labels && next.local == procedure.locals.len(),
    }
}

fn numbers_behind(scope: &Scope<'_>, signature: &Signature<'_>, procedure: &Body) -> Option<Next>
    ensures { result ≡ modules.numbers_behind (seen.scope scope.now) (length signature.now.parameters.now) (seen.mode_found signature.now.answer) procedure.now }
{
    let outermost = labels_end(scope, procedure.statements.as_slice(), 0)?;
    let sight = Sight {
        seen: &Seen::Nothing,
        outermost,
        answer: signature.answer,
    };
    let first = Next {
        label: 0,
        local: signature.parameters.len(),
    };
    body(scope, &sight, procedure, first)
}

fn parameters_first(parameters: &[Mode], locals: &[Local]) -> bool
    ensures { result ≡ modules.parameters_first parameters.now locals.now }
{
    let mut left = locals;
    for parameter in parameters {
        match left {
            [Local::Variable(mode), rest @ ..] => {
                if !same_mode(parameter, mode) {
                    return false;
                }
                left = rest;
            }
            _ => return false,
        }
    }
    true
}

fn locals_stand(records: usize, locals: &[Local]) -> bool
    ensures { result ≡ list_all (modules.local_stands records) locals.now }
{
    for local in locals {
        if !local_stands(records, local) {
            return false;
        }
    }
    true
}

fn local_stands(records: usize, local: &Local) -> bool
    ensures { result ≡ modules.local_stands records local.now }
{
    match local {
        Local::Variable(mode) => stands_passed(records, mode),
        Local::Loop => true,
    }
}

fn items_stand(records: usize, brick: &Brick, items: &[Field]) -> bool
    ensures { result ≡ list_all (modules.item_stands records brick.now.kind brick.now.name) items.now }
{
    for item in items {
        if !stands_alone(records, &item.mode) && !is_recovery_label(brick, item) {
            return false;
        }
    }
    true
}

/// Whether this is LABEL ERL of the SVC data RRERR.
fn is_recovery_label(brick: &Brick, item: &Field) -> bool
    ensures { result ≡ modules.is_recovery_label brick.now.kind brick.now.name item.now }
{
    matches!(brick.kind, Kind::Svc)
        && brick.name.as_slice() == b"RRERR".as_slice()
        && item.name.as_slice() == b"ERL".as_slice()
        && matches!(item.mode, Mode::Label)
}

fn data_starts(scope: &Scope<'_>, kind: Kind, items: &[Field], starts: &[DataStart]) -> bool
    ensures { result ≡ modules.data_starts (seen.scope scope.now) kind items.now starts.now }
{
    if is_here(kind) {
        items_start(scope, starts, items)
    } else {
        starts.is_empty()
    }
}

fn words_fit(kind: Kind, words: u16) -> bool
    ensures { result ≡ modules.words_fit kind words }
{
    if is_here(kind) {
        1 <= words && words <= 28672
    } else {
        matches!(kind, Kind::Ext) && words == 0
    }
}
