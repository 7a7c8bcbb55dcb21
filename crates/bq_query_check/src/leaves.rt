//! Words, variables and the names of functions, each by itself.

ghost use Rattle.std.specs.Prelude.{◌≡◌, Some, IfOk, bytes_eq};
ghost use Rattle.std.specs.List.{list_any, list_all};
ghost use Rattle.bq_query_function.specs.Calls as table;
ghost use Rattle.bq_query_function.specs.Calls.{row_of};
ghost use Rattle.bq_query_lex.specs.QueryError.{Meets};
ghost use Rattle.bq_query_lex.specs.PatternReading.{word_fault};
ghost use Rattle.bq_source.specs.Lexis.{is_digit};
ghost use Rattle.bq_query_check.specs.Verdict as spec;

use bq_base::Bytes;
use bq_query_function::{QuerySignature, function_named, is_left_out};
use bq_query_lex::{QueryErr, read_pattern};
use std::alloc::{AllocError, Global};

/// Fails with Q3 or Q8 if the word can't be read as a target pattern.
pub fn word(alloc: Global, word: &Bytes) -> Result<(), QueryErr>
    ensures { Meets (word_fault word.now) result }
{
    let _pattern = read_pattern(alloc, word)?;
    Ok(())
}

fn is_among(mut names: &[Bytes], name: &[u8]) -> bool
    ensures { result ≡ list_any (bytes_eq name.now) names.now }
{
    while let [first, rest @ ..] = names {
        if name == first.as_slice() {
            return true;
        }
        names = rest;
    }
    false
}

/// Fails with Q7 if no `let` around it binds the variable.
pub fn variable(names: &[Bytes], name: &Bytes) -> Result<(), QueryErr>
    ensures { Meets (spec.variable names.now name.now) result }
{
    if is_among(names, name.as_slice()) {
        return Ok(());
    }
    Err(QueryErr::UnboundVariable(name.share()?))
}

/// Returns the error of a name that isn't that of a function that can be answered: Q3 if Bazel has a function of this
/// name, Q2 if not.
fn unknown(name: &Bytes) -> Result<QueryErr, AllocError>
    ensures { IfOk result (λ e. e ≡ spec.unknown name.now) }
{
    if is_left_out(name.as_slice()) {
        return Ok(QueryErr::LeftOut(name.share()?));
    }
    Ok(QueryErr::UnknownFunction(name.share()?))
}

fn fits(signature: QuerySignature, count: usize) -> bool
    ensures { result ≡ spec.fits (row_of signature) count }
{
    signature.mandatory() <= count && count <= signature.parameters.len()
}

/// Returns the function of a call, and what its arguments must be. Fails with Q2 or Q3 if the name isn't that of a function that can be answered, with
/// Q8 if the number of its arguments is wrong.
pub fn function(name: &Bytes, count: usize) -> Result<QuerySignature, QueryErr>
    ensures fault { Meets (spec.function name.now count) result }
    ensures function { IfOk result (λ s. table.function_named name.now ≡ Some (row_of s)) }
{
    match function_named(name.as_slice()) {
        Some(signature) => {
            if fits(signature, count) {
                Ok(signature)
            } else {
                Err(QueryErr::Arguments)
            }
        }
        None => Err(unknown(name)?),
    }
}

fn is_digit(b: u8) -> bool
    ensures { result ≡ is_digit b }
{
    b.is_ascii_digit()
}

fn are_digits(word: &[u8]) -> bool
    ensures { result ≡ list_all is_digit word.now }
{
    word.iter().all(|b| is_digit(*b))
}

/// Returns whether the word consists of 1 to 9 digits.
pub fn is_number(word: &[u8]) -> bool
    ensures { result ≡ spec.is_number word.now }
{
    if word.is_empty() {
        return false;
    }
    if word.len() > 9 {
        return false;
    }
    are_digits(word)
}
