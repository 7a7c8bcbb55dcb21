//! The names that a load binds, as an object.

ghost use Rattle.std.specs.Prelude.{◌≡◌, ◌++◌, map, OnOk};
ghost use Rattle.std.specs.List.{join_by};
ghost use Rattle.bq_package_values.specs.JsonParts.{comma, member_text};
ghost use Rattle.bq_facts.specs.Members.{further_members};
ghost use Rattle.bq_facts.specs.ModuleLine.{symbol_member, json_symbols};

use crate::json_text::{push_key, push_string};
use crate::shared_text::SharedText;
use bq_resolve_scope::LoadedSymbol;
use std::alloc::{AllocError, Global};

/// Appends a name that is bound, and the name of the symbol of the other file.
fn push_symbol(
    alloc: Global,
    text: &mut SharedText,
    symbol: &LoadedSymbol,
) -> Result<(), AllocError>
    ensures { OnOk result (text.new ≡ text.old ++ member_text (symbol_member symbol.now)) }
{
    push_key(text, symbol.local.as_slice())?;
    push_string(alloc, text, symbol.symbol.as_slice())
}

/// Appends further names, each after a comma.
fn push_further(
    alloc: Global,
    text: &mut SharedText,
    symbols: &[LoadedSymbol],
) -> Result<(), AllocError>
    ensures { OnOk result (text.new ≡ text.old ++ further_members (map symbol_member symbols.now)) }
{
    for symbol in symbols {
        text.push(b',')?;
        push_symbol(alloc, text, symbol)?;
    }
    Ok(())
}

/// Appends the members of the object of names.
fn push_members(
    alloc: Global,
    text: &mut SharedText,
    symbols: &[LoadedSymbol],
) -> Result<(), AllocError>
    ensures { OnOk result (text.new ≡ text.old ++ join_by member_text comma (map symbol_member symbols.now)) }
{
    match symbols {
        [] => Ok(()),
        [first, rest @ ..] => {
            push_symbol(alloc, text, first)?;
            push_further(alloc, text, rest)
        }
    }
}

/// Appends the names that a load binds as an object.
#[tactic(auto, unfolding(bq_package_values::specs::JsonParts::json_object))]
pub(crate) fn push_symbols(
    alloc: Global,
    text: &mut SharedText,
    symbols: &[LoadedSymbol],
) -> Result<(), AllocError>
    ensures { OnOk result (text.new ≡ text.old ++ json_symbols symbols.now) }
{
    text.begin_piece();
    text.push(b'{')?;
    push_members(alloc, text, symbols)?;
    text.push(b'}')
}
