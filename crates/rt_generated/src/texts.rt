//! Making the texts.

ghost use Rattle.std.specs.Prelude.{◌≡◌, ◌≤◌, ◌+◌, ◌++◌, decimal, string_bytes, IfOk, OnOk};
ghost use Rattle.rt_generated.specs.Stores as stores;
ghost use Rattle.rt_generated.specs.Stores.{AreTexts};
ghost use Rattle.rt_generated.specs.Texts as spec;

use crate::store::{NamedText, Texts};
use itoa::Buffer;
use rt_words::{Memory, Text};
use std::alloc::Global;

/// How many tasks a generated system has.
pub fn tasks(n: u16) -> u16
    ensures number { result ≡ spec.tasks_of n }
    ensures few { result ≤ 16 }
{
    1 + n % 16
}

/// Appends a number.
pub fn put_number(out: &mut Text, number: u16) -> Result<(), Memory>
    ensures items { OnOk result (out.new.items ≡ out.old.items ++ decimal number) }
    ensures spare { out.old.spare ≤ out.new.spare + 40 }
{
    let mut digits = Buffer::new();
    out.push_all(digits.format(number).as_bytes())
}

fn put_stack(out: &mut Text, k: u16) -> Result<(), Memory>
    ensures { OnOk result (out.new.items ≡ out.old.items ++ spec.stack_line k) }
{
    out.push_all(b"ENT STACK S")?;
    put_number(out, k)?;
    out.push_all(b" 60;\n")
}

fn put_root(out: &mut Text, k: u16) -> Result<(), Memory>
    ensures { OnOk result (out.new.items ≡ out.old.items ++ spec.root_line k) }
{
    out.push_all(b"ENT PROC T")?;
    put_number(out, k)?;
    out.push_all(b"(); WORK(")?;
    put_number(out, k)?;
    out.push_all(b") ENDPROC;\n")
}

fn put_task(out: &mut Text, k: u16) -> Result<(), Memory>
    ensures { OnOk result (out.new.items ≡ out.old.items ++ spec.task_line k) }
{
    out.push_all(b"TASK T")?;
    put_number(out, k)?;
    out.push_all(b" T")?;
    put_number(out, k)?;
    out.push_all(b" S")?;
    put_number(out, k)?;
    out.push_all(b" 10\n")
}

fn put_stacks(out: &mut Text, count: u16) -> Result<(), Memory>
    requires { count ≤ 16 }
    ensures { OnOk result (out.new.items ≡ out.old.items ++ spec.each_from spec.stack_line 1 count) }
{
    for k in 1..count + 1 {
        put_stack(out, k)?;
    }
    Ok(())
}

fn put_roots(out: &mut Text, count: u16) -> Result<(), Memory>
    requires { count ≤ 16 }
    ensures { OnOk result (out.new.items ≡ out.old.items ++ spec.each_from spec.root_line 1 count) }
{
    for k in 1..count + 1 {
        put_root(out, k)?;
    }
    Ok(())
}

fn put_tasks(out: &mut Text, count: u16) -> Result<(), Memory>
    requires { count ≤ 16 }
    ensures { OnOk result (out.new.items ≡ out.old.items ++ spec.each_from spec.task_line 1 count) }
{
    for k in 1..count + 1 {
        put_task(out, k)?;
    }
    Ok(())
}

fn put_front(out: &mut Text, n: u16) -> Result<(), Memory>
    ensures { OnOk result (out.new.items ≡ out.old.items ++ spec.module_front n) }
{
    out.push_all(
        b"TITLE GEN;\nSVC PROC(INT) SECURE, RELEASE;\nEXT PROC(INT) IWRT, NLS;\nDATA D; INT SUM, LEFT := ",
    )?;
    put_number(out, tasks(n))?;
    out.push_all(b"; ENDDATA;\nPROC WORK(INT K);\nTO ")?;
    put_number(out, n)?;
    out.push_all(
        b" DO SECURE(1); SUM := SUM + K; RELEASE(1) REP;\nSECURE(1); LEFT := LEFT - 1;\nIF LEFT = 0 THEN IWRT(SUM); NLS(1) END;\nRELEASE(1)\nENDPROC;\n",
    )
}

fn module_text(alloc: Global, n: u16) -> Result<Text, Memory>
    ensures { IfOk result (λ t. t.items ≡ spec.module_text n) }
{
    let mut out = Text::new(alloc, 2000)?;
    put_front(&mut out, n)?;
    put_stacks(&mut out, tasks(n))?;
    put_roots(&mut out, tasks(n))?;
    Ok(out)
}

fn system_text(alloc: Global, n: u16, name: &str) -> Result<Text, Memory>
    ensures { IfOk result (λ t. t.items ≡ spec.system_text n name.now) }
{
    let mut out = Text::new(alloc, 500)?;
    out.push_all(b"LIBRARY\nMODULE ")?;
    out.push_all(name.as_bytes())?;
    out.push_all(b".RTL\n")?;
    put_tasks(&mut out, tasks(n))?;
    Ok(out)
}

fn tick_text(alloc: Global) -> Result<Text, Memory>
    ensures { IfOk result (λ t. t.items ≡ spec.tick_text) }
{
    let mut out = Text::new(alloc, 10)?;
    out.push_all(b"97*200\n")?;
    Ok(out)
}

/// A text under a name and an ending.
fn named(alloc: Global, name: &str, ending: &str, text: Text) -> Result<NamedText, Memory>
    ensures { IfOk result (λ t. stores.file_of t ≡ (name.now ++ ending.now, text.items)) }
{
    let mut file = String::new(alloc);
    file.push_str(name)?;
    file.push_str(ending)?;
    Ok(NamedText {
        name: file,
        text: text.into_list(),
    })
}

fn named_module(alloc: Global, n: u16, name: &str) -> Result<NamedText, Memory>
    ensures { IfOk result (λ t. stores.file_of t ≡ (spec.module_name name.now, spec.module_text n)) }
{
    let text = module_text(alloc, n)?;
    named(alloc, name, ".RTL", text)
}

fn named_system(alloc: Global, n: u16, name: &str) -> Result<NamedText, Memory>
    ensures { IfOk result (λ t. stores.file_of t ≡ (spec.system_name name.now, spec.system_text n name.now)) }
{
    let text = system_text(alloc, n, name)?;
    named(alloc, name, ".SYS", text)
}

fn named_ticks(alloc: Global, name: &str) -> Result<NamedText, Memory>
    ensures { IfOk result (λ t. stores.file_of t ≡ (spec.ticks_name name.now, spec.tick_text)) }
{
    let text = tick_text(alloc)?;
    named(alloc, name, ".TCK", text)
}

/// The three texts of `gen N NAME`.
pub fn make_texts(alloc: Global, n: u16, name: &str) -> Result<Texts, Memory>
    ensures { IfOk result (AreTexts n name.now) }
{
    let module = named_module(alloc, n, name)?;
    let system = named_system(alloc, n, name)?;
    let ticks = named_ticks(alloc, name)?;
    Ok(Texts {
        module,
        system,
        ticks,
    })
}
