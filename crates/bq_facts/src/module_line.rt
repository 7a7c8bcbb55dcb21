//! The lines of modules.

ghost use Rattle.std.specs.Prelude.{◌≡◌, ◌++◌, ◌∷◌, OnOk};
ghost use Rattle.std.specs.List.{join_by, zip};
ghost use Rattle.bq_package_values.specs.JsonParts.{comma, member_text};
ghost use Rattle.bq_facts.specs.Members.{further_members};
ghost use Rattle.bq_facts.specs.ModuleLine.{comma_before, file_members, clause_members, load_object, json_loads, load_members, module_line};

use crate::json_text::next_key;
use crate::members::{next_number, next_string, open_with_label};
use crate::shared_text::SharedText;
use crate::symbols::push_symbols;
use bq_label::{Label, label_path};
use bq_load_front::NamedFiles;
use bq_resolve_scope::LoadStmt;
use std::alloc::{AllocError, Global};

/// Begins an object with the label and the path of a file.
fn open_with_file(
    alloc: Global,
    text: &mut SharedText,
    key: &[u8],
    file: &Label,
) -> Result<(), AllocError>
    ensures { OnOk result (text.new ≡ text.old ++ (123 ∷ join_by member_text comma (file_members key.now file.now))) }
{
    let path = label_path(alloc, file)?;
    open_with_label(alloc, text, key, file)?;
    next_string(alloc, text, b"file", &path)
}

/// Appends the line of a load, and the names that it binds.
fn push_clauses(alloc: Global, text: &mut SharedText, load: &LoadStmt) -> Result<(), AllocError>
    ensures { OnOk result (text.new ≡ text.old ++ further_members (clause_members load.now)) }
{
    next_number(text, b"line", load.line as u64)?;
    next_key(text, b"symbols")?;
    push_symbols(alloc, text, load.clauses.as_slice())
}

/// Appends a load, which names this file.
fn push_load(
    alloc: Global,
    text: &mut SharedText,
    load: &LoadStmt,
    file: &Label,
) -> Result<(), AllocError>
    ensures { OnOk result (text.new ≡ text.old ++ load_object (load.now, file.now)) }
{
    open_with_file(alloc, text, b"label", file)?;
    push_clauses(alloc, text, load)?;
    text.push(b'}')?;
    Ok(())
}

/// Appends a comma, unless this is the first item.
fn push_comma(text: &mut SharedText, number: usize) -> Result<(), AllocError>
    ensures { OnOk result (text.new ≡ text.old ++ comma_before number) }
{
    if number == 0 {
        return Ok(());
    }
    text.push(b',')
}

/// Appends loads, which name these files.
#[tactic(auto, using(crate::proofs::Loads::no_load))]
fn push_items(
    alloc: Global,
    text: &mut SharedText,
    loads: &[LoadStmt],
    files: &NamedFiles,
) -> Result<(), AllocError>
    ensures { OnOk result (text.new ≡ text.old ++ join_by load_object comma (zip loads.now files.now)) }
{
    for (number, load) in loads.iter().enumerate() {
        let Some(file) = files.label(number) else {
            return Ok(());
        };
        push_comma(text, number)?;
        push_load(alloc, text, load, file)?;
    }
    Ok(())
}

/// Appends a list of loads, which name these files.
#[tactic(auto, unfolding(bq_package_values::specs::JsonParts::json_array))]
fn push_loads(
    alloc: Global,
    text: &mut SharedText,
    loads: &[LoadStmt],
    files: &NamedFiles,
) -> Result<(), AllocError>
    ensures { OnOk result (text.new ≡ text.old ++ json_loads loads.now files.now) }
{
    text.push(b'[')?;
    push_items(alloc, text, loads, files)?;
    text.push(b']')
}

/// Appends the member of an object that has loads.
fn push_load_member(
    alloc: Global,
    text: &mut SharedText,
    loads: &[LoadStmt],
    files: &NamedFiles,
) -> Result<(), AllocError>
    ensures { OnOk result (text.new ≡ text.old ++ further_members (load_members loads.now files.now)) }
{
    next_key(text, b"loads")?;
    push_loads(alloc, text, loads, files)
}

/// Appends the line of a module: an object with its label, the path of its file, and its loads, which name these files.
pub fn push_module(
    alloc: Global,
    text: &mut SharedText,
    label: &Label,
    loads: &[LoadStmt],
    files: &NamedFiles,
) -> Result<(), AllocError>
    ensures { OnOk result (text.new ≡ text.old ++ module_line label.now loads.now files.now) }
{
    open_with_file(alloc, text, b"module", label)?;
    push_load_member(alloc, text, loads, files)?;
    text.push(b'}')?;
    text.end_line(alloc)?;
    Ok(())
}
