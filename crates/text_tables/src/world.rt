use crate::fields::document_of;
use crate::texts::{halves, number};
use cluster_states::States;
use doc_types::{DEFAULT_SCHEMA, Schema};
use documents::Document;
use json_documents::schema_from_json;
use line_values::ValueReader;
use std::alloc::Global;

/// What the tables speak of, and what goes on from line to line.
#[derive(Drop)]
pub struct World {
    /// The schema that the command has where none is named.
    pub standard: Schema,
    pub schemas: Vec<Schema>,
    pub documents: Vec<Document>,
    pub states: States,
    pub values: ValueReader,
}

fn push_schema(alloc: Global, schemas: &mut Vec<Schema>, line: &str) -> bool {
    match schema_from_json(alloc, line) {
        Ok(schema) => schemas.push(schema).is_ok(),
        Err(_) => false,
    }
}

impl World {
    /// Reads the schemas, one a line, and the documents: a schema's number, an id, and fields in JSON.
    pub fn read(alloc: Global, schemas: &str, documents: &str) -> Option<World> {
        let mut world = World::new(alloc, schema_from_json(alloc, DEFAULT_SCHEMA).ok()?);
        if world.take_schemas(alloc, schemas) && world.take_documents(alloc, documents) {
            Some(world)
        } else {
            None
        }
    }

    fn new(alloc: Global, standard: Schema) -> World {
        World {
            standard,
            schemas: Vec::new(alloc),
            documents: Vec::new(alloc),
            states: States::new(1),
            values: ValueReader::new(alloc),
        }
    }

    /// Whether all lines are schemas.
    fn take_schemas(&mut self, alloc: Global, text: &str) -> bool {
        let mut good = true;
        for line in text.lines() {
            good &= push_schema(alloc, &mut self.schemas, line);
        }
        good
    }

    /// Whether all lines are documents.
    fn take_documents(&mut self, alloc: Global, text: &str) -> bool {
        let mut good = true;
        for line in text.lines() {
            good &= self.push_document(alloc, line);
        }
        good
    }

    fn push_document(&mut self, alloc: Global, line: &str) -> bool {
        let (schema, rest) = halves(line);
        let (id, fields) = halves(rest);
        match document_of(alloc, self.schema(number(schema, 0)), id, fields) {
            Ok(document) => self.documents.push(document).is_ok(),
            Err(_) => false,
        }
    }

    /// The schema of a number.
    pub fn schema(&self, number: u64) -> &Schema {
        match usize::try_from(number) {
            Ok(number) => self.schemas.get(number).unwrap_or(&self.standard),
            Err(_) => &self.standard,
        }
    }
}
