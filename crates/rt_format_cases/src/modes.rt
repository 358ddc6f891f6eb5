//! Modes, their texts and spellings, the sizes of their values, and the words and lists that these stand on.
//!
//! Numbers are decimal; the bytes of a spelling stand one by one.
//!
//! - `records`: there are no records, in the table and in the other one.
//! - `record R / A = 2 / B = 4 7 0 0`: a record more in the table, with its fields and the spellings of their modes;
//!   its number. `other R / A = 2`: so in the other table.
//! - `mode 0 : 9 1 4 7 0 0 2`: the mode that stands at that place of these bytes: its full mode, the place behind it, and
//!   its spelling; or the place where it is refused.
//! - `deep 100 9 0 / 1 0`: the place behind the mode that these bytes spell, each part so many times.
//! - `same 2 : 3`: whether the first mode has over the table the full mode that the second has over the other one.
//! - `data 0`: over the table, the full mode of a data brick with the fields of that record of the other table, and
//!   whether it has the same over the other.
//! - `sizes`: the size of each record of the table, or whether it contains itself.
//! - `layout 0`: where the fields of that record lie, and where they end or with which one they are too large.
//! - `word 300 * 300`: an operator on words. `signed 32768`: the number of a word. `octal 65`: its octal digits.
//! - `list push 1 ; push 2 ; set 0 7 ; copy ; build 8 ; pop ; take`: what the steps on a list give.
//! - `name ABC`: the name of these bytes.

mod decimals;
mod layouts;
mod lists;
mod records;
mod same;
mod spellings;
mod words;

use layouts::{describe_layout, describe_sizes};
use lists::{describe_list, describe_name};
pub use records::Tables;
use records::describe_record;
use rt_words::{Memory, Text};
use same::{describe_data, describe_same};
use spellings::{describe_deep, describe_mode};
use std::alloc::Global;
use words::{describe_octal, describe_signed, describe_word};

/// Answers a case of this part; false where it is none.
pub fn answer(
    alloc: Global,
    kind: &str,
    rest: &str,
    tables: &mut Tables,
    out: &mut Text,
) -> Result<bool, Memory> {
    match kind {
        "records" => {
            *tables = Tables::new(alloc);
            out.push_all(b"no records")?
        }
        "record" => describe_record(alloc, rest, &mut tables.own, out)?,
        "other" => describe_record(alloc, rest, &mut tables.other, out)?,
        _ => return answer_modes(alloc, kind, rest, tables, out),
    }
    Ok(true)
}

fn answer_modes(
    alloc: Global,
    kind: &str,
    rest: &str,
    tables: &Tables,
    out: &mut Text,
) -> Result<bool, Memory> {
    match kind {
        "mode" => describe_mode(alloc, rest, &tables.own, out)?,
        "deep" => describe_deep(alloc, rest, &tables.own, out)?,
        "same" => describe_same(alloc, rest, tables, out)?,
        "data" => describe_data(alloc, rest, tables, out)?,
        "sizes" => describe_sizes(alloc, &tables.own, out)?,
        "layout" => describe_layout(alloc, rest, &tables.own, out)?,
        _ => return answer_words(alloc, kind, rest, out),
    }
    Ok(true)
}

fn answer_words(alloc: Global, kind: &str, rest: &str, out: &mut Text) -> Result<bool, Memory> {
    match kind {
        "word" => describe_word(rest, out)?,
        "signed" => describe_signed(rest, out)?,
        "octal" => describe_octal(rest, out)?,
        "list" => describe_list(alloc, rest, out)?,
        "name" => describe_name(alloc, rest, out)?,
        _ => return Ok(false),
    }
    Ok(true)
}
