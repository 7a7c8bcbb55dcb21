//! Functions in functions, which the language leaves out.

ghost use Rattle.std.specs.Prelude.{◌≡◌};
ghost use Rattle.bq_parse.specs.Nested as spec;
ghost use Rattle.bq_parse_grammar.specs.LeftOut as left_out;

use bq_parse_grammar::{Branch, Stmt};

/// Returns whether a `def` stands in a `def`, in the statements of a block in which `depth` indents may still be opened.
#[cycle(nested_def)]
#[tactic(auto, using(crate::proofs::Levels::none_within, crate::proofs::Levels::some_within), unfolding(crate::specs::Nested::in_block))]
fn in_block(depth: usize, inside: bool, block: &[Stmt]) -> bool
    ensures { result ≡ spec.in_block depth inside block.now }
{
    for statement in block {
        if depth > 0 && nested_def(depth - 1, inside, statement) {
            return true;
        }
    }
    false
}

/// Returns whether a `def` stands in a `def`, in the blocks of an `if`.
#[cycle(nested_def)]
#[tactic(auto, unfolding(crate::specs::Nested::in_branches))]
fn in_branches(depth: usize, inside: bool, branches: &[Branch]) -> bool
    ensures { result ≡ spec.in_branches depth inside branches.now }
{
    for branch in branches {
        if in_block(depth, inside, branch.block.as_slice()) {
            return true;
        }
    }
    false
}

/// Returns whether a `def` stands in a `def`, in a statement that is at most `depth` indents deep.
#[cycle(nested_def)]
#[tactic(auto, using(crate::proofs::Levels::by_level))]
pub fn nested_def(depth: usize, inside: bool, statement: &Stmt) -> bool
    ensures { result ≡ left_out.nested_def depth inside statement.now }
{
    match statement {
        Stmt::Simple(_) => false,
        Stmt::If(branches, block) => {
            in_branches(depth, inside, branches.as_slice())
                || in_block(depth, inside, block.as_slice())
        }
        Stmt::For(_, _, block) => in_block(depth, inside, block.as_slice()),
        Stmt::Def(_, _, block) => inside || in_block(depth, true, block.as_slice()),
    }
}
