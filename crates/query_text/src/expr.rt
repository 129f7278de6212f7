ghost use Rattle.std.specs.Prelude.{◌≡◌, IfOk};
ghost use Rattle.conditions.specs.Chains.{joined};
ghost use Rattle.conditions.specs.Formulas.{claim, opposite};
ghost use Rattle.conditions.specs.Views as views;
ghost use Rattle.query_text.specs.Formulas.{formula_of};

use crate::terms::{Rel, Term};
use conditions::{Joint, Tree};
use doc_types::TextList;
use std::alloc::Global;
use value_lists::{NoMemory, TextValue};

/// What a query asks of a document. A chain of `and` or of `or` is a balanced tree.
#[derive(Drop)]
pub enum Expr {
    True,
    False,
    Not(Box<Expr>),
    And(Box<Expr>, Box<Expr>),
    Or(Box<Expr>, Box<Expr>),
    /// There is a token, and the field has each.
    Contains {
        field: TextValue,
        tokens: TextList,
    },
    /// The field, or some item of it, compares so with the number.
    Compare {
        field: TextValue,
        rel: Rel,
        number: i64,
    },
}

/// The expression of one term.
fn expr_of_term(term: Term) -> Expr
    ensures { formula_of result ≡ claim term }
{
    match term {
        Term::Contains { field, tokens } => Expr::Contains { field, tokens },
        Term::Compare { field, rel, number } => Expr::Compare { field, rel, number },
    }
}

/// The opposite of an expression.
fn opposite(alloc: Global, inner: Expr) -> Result<Expr, NoMemory>
    ensures { IfOk result (λ expr. formula_of expr ≡ opposite (formula_of inner)) }
{
    Ok(Expr::Not(Box::new(alloc, inner)?))
}

/// Two expressions as one.
fn join(alloc: Global, joint: Joint, one: Expr, two: Expr) -> Result<Expr, NoMemory>
    ensures { IfOk result (λ expr. formula_of expr ≡ joined joint (formula_of one) (formula_of two)) }
{
    let one = Box::new(alloc, one)?;
    let two = Box::new(alloc, two)?;
    match joint {
        Joint::And => Ok(Expr::And(one, two)),
        Joint::Or => Ok(Expr::Or(one, two)),
    }
}

/// The expression of a tree of terms.
pub fn expr_of(alloc: Global, tree: Tree<Term>) -> Result<Expr, NoMemory>
    ensures { IfOk result (λ expr. formula_of expr ≡ views.formula_of tree) }
{
    match tree {
        Tree::True => Ok(Expr::True),
        Tree::False => Ok(Expr::False),
        Tree::Atom(term) => Ok(expr_of_term(term)),
        Tree::Not(inner) => opposite(alloc, expr_of(alloc, Box::into_inner(inner))?),
        Tree::And(one, two) => {
            let one = expr_of(alloc, Box::into_inner(one))?;
            let two = expr_of(alloc, Box::into_inner(two))?;
            join(alloc, Joint::And, one, two)
        }
        Tree::Or(one, two) => {
            let one = expr_of(alloc, Box::into_inner(one))?;
            let two = expr_of(alloc, Box::into_inner(two))?;
            join(alloc, Joint::Or, one, two)
        }
    }
}
