//! The texts of instructions.
ghost use Rattle.std.specs.Prelude.{◌≡◌, ◌++◌, ◌∷◌, [], decimal, OnOk};
ghost use Rattle.rt_icode.specs.Texts.{numbers, parts, place_text, width_text, item_text, alter_text, merge_text, division_text, relation_text, truth_text, kept_text, recovers_text, name_of, operands_of, text_of};

use crate::ins::{Alter, Division, Fixed, Ins, Merge, OwnItem, Width};
use itoa::Buffer;
use rt_tree_nodes::Rel;
use rt_words::{Memory, Text};

fn item(item: OwnItem) -> &'static str
    ensures { result.now ≡ item_text item }
{
    match item {
        OwnItem::Ern => " ERN",
        OwnItem::Erp => " ERP",
        OwnItem::In => " IN",
        OwnItem::Out => " OUT",
    }
}

fn width(width: Width) -> &'static str
    ensures { result.now ≡ width_text width }
{
    match width {
        Width::Byte => " Byte",
        Width::Word => " Word",
    }
}

fn alter(alter: Alter) -> &'static str
    ensures { result.now ≡ alter_text alter }
{
    match alter {
        Alter::Negate => " -",
        Alter::Absolute => " ABS",
        Alter::Complement => " NOT",
        Alter::LowByte => " BYTE",
    }
}

fn merge(merge: Merge) -> &'static str
    ensures { result.now ≡ merge_text merge }
{
    match merge {
        Merge::Plus => " +",
        Merge::Minus => " -",
        Merge::Times => " *",
        Merge::FracTimes => " * of FRAC",
        Merge::Land => " LAND",
        Merge::Lor => " LOR",
        Merge::Nev => " NEV",
        Merge::Sll => " SLL",
        Merge::Srl => " SRL",
        Merge::Sla => " SLA",
        Merge::Sra => " SRA",
    }
}

fn division(division: Division) -> &'static str
    ensures { result.now ≡ division_text division }
{
    match division {
        Division::Quotient => " :/",
        Division::Remainder => " MOD",
    }
}

fn relation(relation: Rel) -> &'static str
    ensures { result.now ≡ relation_text relation }
{
    match relation {
        Rel::Equal => " =",
        Rel::Unequal => " #",
        Rel::Less => " <",
        Rel::LessOrEqual => " <=",
        Rel::Greater => " >",
        Rel::GreaterOrEqual => " >=",
        Rel::Same => " :=:",
        Rel::Different => " :#:",
    }
}

fn truth(when: bool) -> &'static str
    ensures { result.now ≡ truth_text when }
{
    if when { " true" } else { " false" }
}

fn kept(gives: bool) -> &'static str
    ensures { result.now ≡ kept_text gives }
{
    if gives { " kept" } else { "" }
}

fn recovery(recovers: bool) -> &'static str
    ensures { result.now ≡ recovers_text recovers }
{
    if recovers { " recovers" } else { "" }
}

fn put(out: &mut Text, text: &str) -> Result<(), Memory>
    ensures { OnOk result (out.new.items ≡ out.old.items ++ text.now) }
{
    out.push_all(text.as_bytes())
}

fn put_number(out: &mut Text, before: &str, n: u32) -> Result<(), Memory>
    ensures { OnOk result (out.new.items ≡ out.old.items ++ (before.now ++ decimal n)) }
{
    let mut digits = Buffer::new();
    put(out, before)?;
    put(out, digits.format(n))
}

fn put_numbers(out: &mut Text, ns: &[u32]) -> Result<(), Memory>
    ensures { OnOk result (out.new.items ≡ out.old.items ++ numbers ns.now) }
{
    for n in ns {
        put_number(out, " ", *n)?;
    }
    Ok(())
}

fn put_parts(out: &mut Text, ns: &[u16]) -> Result<(), Memory>
    ensures { OnOk result (out.new.items ≡ out.old.items ++ parts ns.now) }
{
    for n in ns {
        put_number(out, ".", u32::from(*n))?;
    }
    Ok(())
}

fn put_place(out: &mut Text, place: &Fixed) -> Result<(), Memory>
    ensures { OnOk result (out.new.items ≡ out.old.items ++ place_text place.now) }
{
    put_number(out, " ", u32::from(place.brick))?;
    put_number(out, ".", u32::from(place.item))?;
    put_parts(out, place.fields.as_slice())?;
    put_number(out, "+", u32::from(place.offset))
}

fn put_wide(out: &mut Text, wide: Width, place: &Fixed) -> Result<(), Memory>
    ensures { OnOk result (out.new.items ≡ out.old.items ++ (width_text wide ++ place_text place.now)) }
{
    put(out, width(wide))?;
    put_place(out, place)
}

fn put_row(out: &mut Text, row: &Fixed, ns: &[u32]) -> Result<(), Memory>
    ensures { OnOk result (out.new.items ≡ out.old.items ++ (place_text row.now ++ numbers ns.now)) }
{
    put_place(out, row)?;
    put_numbers(out, ns)
}

fn put_call(out: &mut Text, ns: &[u32], behind: &str) -> Result<(), Memory>
    ensures { OnOk result (out.new.items ≡ out.old.items ++ (numbers ns.now ++ behind.now)) }
{
    put_numbers(out, ns)?;
    put(out, behind)
}

fn put_test(out: &mut Text, of: Rel, when: bool, more: u32) -> Result<(), Memory>
    ensures { OnOk result (out.new.items ≡ out.old.items ++ (relation_text of ++ (truth_text when ++ numbers (more ∷ [])))) }
{
    put(out, relation(of))?;
    put(out, truth(when))?;
    put_numbers(out, &[more])
}

/// The name of an instruction.
fn name(i: &Ins) -> &'static str
    ensures { result.now ≡ name_of i.now }
{
    match i {
        Ins::Enter { .. } => "Enter",
        Ins::Const(_) => "Const",
        Ins::Text(_) => "Text",
        Ins::Routine(_) => "Routine",
        Ins::LoadLocal(_) => "LoadLocal",
        Ins::SaveLocal(_) => "SaveLocal",
        Ins::ClearLocal(_) => "ClearLocal",
        Ins::Discard => "Discard",
        Ins::Reach(_) => "Reach",
        Ins::ReachRow { .. } => "ReachRow",
        Ins::Load { .. } => "Load",
        Ins::Save { .. } => "Save",
        Ins::ElementAt { .. } => "ElementAt",
        Ins::LoadOwn(_) => "LoadOwn",
        Ins::SaveOwn(_) => "SaveOwn",
        Ins::Into { .. } => "Into",
        Ins::IntoRow { .. } => "IntoRow",
        Ins::Element { .. } => "Element",
        Ins::ElementRow { .. } => "ElementRow",
        Ins::Fetch(_) => "Fetch",
        Ins::Store(_) => "Store",
        Ins::Tell(_) => "Tell",
        Ins::Length => "Length",
        Ins::Alter(_) => "Alter",
        Ins::Merge(_) => "Merge",
        Ins::Divide(_) => "Divide",
        Ins::DivideOr(_) => "DivideOr",
        Ins::Report => "Report",
        Ins::Test { .. } => "Test",
        Ins::Skip { .. } => "Skip",
        Ins::Go { .. } => "Go",
        Ins::Case { .. } => "Case",
        Ins::CountFor { .. } => "CountFor",
        Ins::CountTo { .. } => "CountTo",
        Ins::TurnFor { .. } => "TurnFor",
        Ins::TurnTo { .. } => "TurnTo",
        Ins::Invoke { .. } => "Invoke",
        Ins::InvokeBy { .. } => "InvokeBy",
        Ins::GiveUp => "GiveUp",
        Ins::Leave => "Leave",
        Ins::Recover { .. } => "Recover",
        Ins::Restore => "Restore",
    }
}

fn put_operands(i: &Ins, out: &mut Text) -> Result<(), Memory>
    ensures { OnOk result (out.new.items ≡ out.old.items ++ operands_of i.now) }
{
    match i {
        Ins::Enter {
            brick,
            parameters,
            locals,
            recovers,
        } => put_call(
            out,
            &[
                u32::from(*brick),
                u32::from(*parameters),
                u32::from(*locals),
            ],
            recovery(*recovers),
        ),
        Ins::Const(n)
        | Ins::Text(n)
        | Ins::Routine(n)
        | Ins::LoadLocal(n)
        | Ins::SaveLocal(n)
        | Ins::ClearLocal(n)
        | Ins::Tell(n)
        | Ins::ElementRow { size: n } => put_numbers(out, &[u32::from(*n)]),
        Ins::Skip { more: n } | Ins::Go { to: n } | Ins::Case { to: n } | Ins::Recover { to: n } =>
            { put_numbers(out, &[*n]) }
        Ins::Reach(place) => put_place(out, place),
        Ins::ReachRow { row, length } => put_row(out, row, &[u32::from(*length)]),
        Ins::Load { width, place } | Ins::Save { width, place } => put_wide(out, *width, place),
        Ins::ElementAt { row, length, size } => {
            put_row(out, row, &[u32::from(*length), u32::from(*size)])
        }
        Ins::LoadOwn(k) | Ins::SaveOwn(k) => put(out, item(*k)),
        Ins::Into {
            field: a,
            offset: b,
        }
        | Ins::Element { length: a, size: b } => {
            put_numbers(out, &[u32::from(*a), u32::from(*b)])
        }
        Ins::CountFor { local, more: n }
        | Ins::CountTo { local, more: n }
        | Ins::TurnFor { local, to: n }
        | Ins::TurnTo { local, to: n } => put_numbers(out, &[u32::from(*local), *n]),
        Ins::IntoRow {
            field,
            offset,
            length,
        } => put_numbers(
            out,
            &[u32::from(*field), u32::from(*offset), u32::from(*length)],
        ),
        Ins::Fetch(z) | Ins::Store(z) => put(out, width(*z)),
        Ins::Alter(a) => put(out, alter(*a)),
        Ins::Merge(m) => put(out, merge(*m)),
        Ins::Divide(d) | Ins::DivideOr(d) => put(out, division(*d)),
        Ins::Test {
            relation,
            when,
            more,
        } => put_test(out, *relation, *when, *more),
        Ins::Invoke {
            brick,
            arguments,
            gives,
        } => put_call(
            out,
            &[u32::from(*brick), u32::from(*arguments)],
            kept(*gives),
        ),
        Ins::InvokeBy { arguments, gives } => {
            put_call(out, &[u32::from(*arguments)], kept(*gives))
        }
        Ins::Discard | Ins::Length | Ins::Report | Ins::GiveUp | Ins::Leave | Ins::Restore => Ok(
            (),
        ),
    }
}

/// Appends the text of an instruction: its name, and its operands behind spaces.
pub fn print_ins(i: &Ins, out: &mut Text) -> Result<(), Memory>
    ensures { OnOk result (out.new.items ≡ out.old.items ++ text_of i.now) }
{
    put(out, name(i))?;
    put_operands(i, out)
}
