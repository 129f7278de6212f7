ghost use Rattle.std.specs.Prelude.{◌≡◌, IfOk};
ghost use Rattle.conditions.specs.Views.{formula_of};
ghost use Rattle.doc_selection.specs.Grammar.{Parses};
ghost use Rattle.doc_selection.specs.Saying.{Says};
ghost use Rattle.doc_selection.specs.Truth.{selects};

use crate::reader::start;
use crate::terms::Term;
use crate::truth::tree_holds;
use conditions::{ReadFault, Tree, read};
use doc_types::{Language, Schema};
use documents::Document;
use std::alloc::Global;
use std::fmt;
use std::marker::Model;
use std::sync::Arc;
use thiserror::Error;
use value_lists::{NoMemory, TryCopy};

/// Why a text is no selection.
#[derive(Clone, Copy, Debug, PartialEq, Eq, Error)]
pub enum SelectionFault {
    /// No selection goes on so under this schema.
    #[error("no selection at {offset}")]
    BadSelection {
        /// How many bytes stand before the first token that is refused, before the place where no token
        /// can be read, or in the text where it ends too early.
        offset: u32,
    },
    #[error("out of memory")]
    NoMemory,
}

/// A selection of documents; copies share it.
#[derive(Drop)]
pub struct Selection {
    tree: Arc<Tree<Term>>,
}

impl Model for Selection {
    ghost use Rattle.std.specs.Arc.{arc_value};
    ghost use Rattle.conditions.specs.Formulas.{Formula};
    ghost use Rattle.conditions.specs.Codes.{formula_code};
    ghost use Rattle.conditions.specs.Views.{formula_of};
    ghost use Rattle.doc_selection.specs.contracts.terms.Term as term;
    ghost use Rattle.doc_selection.specs.declared.terms.Term.{Term};

    ghost Value = { Formula Term };

    ghost coded = { formula_code term.the_row.coded };

    ghost view = { λ s. formula_of (arc_value s.tree) };
}

/// The selection that a text says under a schema, or where it is refused.
fn parsed(alloc: Global, text: &str, schema: &Schema) -> Result<Selection, SelectionFault>
    ensures { Parses schema.now text.now result }
{
    let reader = match start(alloc) {
        Ok(reader) => reader,
        Err(_) => return Err(SelectionFault::NoMemory),
    };
    match read(alloc, Language::Selection, schema, reader, text) {
        Ok(selection) => Ok(selection),
        Err(ReadFault::Refused { offset }) => Err(SelectionFault::BadSelection { offset }),
        Err(ReadFault::NoMemory) => Err(SelectionFault::NoMemory),
    }
}

impl Selection {
    /// The selection that a tree says.
    pub fn of(alloc: Global, tree: Tree<Term>) -> Result<Selection, NoMemory>
        ensures { IfOk result (λ selection. selection ≡ formula_of tree) }
    {
        Ok(Selection {
            tree: Arc::new(alloc, tree)?,
        })
    }

    /// The selection that a text says under a schema, or where it is refused.
    pub fn parse(alloc: Global, text: &str, schema: &Schema) -> Result<Selection, SelectionFault>
        ensures exactly { Parses schema.now text.now result }
        ensures said { Says schema.now text.now result }
    {
        parsed(alloc, text, schema)
    }

    /// Whether it is true of a document.
    pub fn holds(&self, document: &Document) -> bool
        ensures { result ≡ selects document.now self.now }
    {
        tree_holds(&self.tree, document)
    }
}

impl TryCopy for Selection {
    fn copy(&self, _alloc: Global) -> Result<Selection, NoMemory> {
        Ok(Selection {
            tree: Arc::try_clone(&self.tree)?,
        })
    }
}

impl fmt::Debug for Selection {
    fn fmt<W: fmt::Write>(&self, f: &mut fmt::Formatter<W>) -> fmt::Result {
        f.write_str("Selection")
    }
}
