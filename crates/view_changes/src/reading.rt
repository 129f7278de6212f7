ghost use Rattle.std.specs.Prelude.{◌≡◌, ◌<◌, ℤ, [], length, IfNone, IfSome};
ghost use Rattle.std.specs.Int.Signed.{◌≤ℤ◌, ◌<ℤ◌};
ghost use Rattle.local_ids.specs.Rising.{IsRising};
ghost use Rattle.std.specs.Option.{option_copied};
ghost use Rattle.document_rows.specs.Reading.{places_where, row_at, is_of_type, has_token, has_number_in, IsWide};
ghost use Rattle.view_changes.specs.Kept.{IsView};
ghost use Rattle.view_changes.specs.Serving.{serves_at, rows_of, covered_at};

use documents::Document;

/// What a search reads of a lane: of each of its 32 nodes rising lists of local ids. Nothing here takes memory.
pub trait Lists {
    ghost use Rattle.view_changes.specs.Views.{View};

    ghost seen: { Self → View };

    /// Whether a node is at a version, and isn't stopped.
    fn serves(&self, node: u8, version: u32) -> bool
        ensures value { result ≡ serves_at node version (seen self.now).nodes }
        ensures valid { IsView (seen self.now) };

    /// The local ids of a node's documents of a type.
    fn of_type(&self, node: u8, type_name: &str) -> &[u32]
        ensures ids { result.now ≡ places_where (is_of_type type_name.now) (rows_of node (seen self.now)) }
        ensures rising { IsRising result.now };

    /// The local ids of those that have a token in a field, in some item of a list.
    fn with_token(&self, node: u8, type_name: &str, field: &str, token: &str) -> &[u32]
        ensures ids { result.now ≡ places_where (has_token type_name.now field.now token.now)
            (rows_of node (seen self.now)) }
        ensures rising { IsRising result.now };

    /// The least number from one to another, both with them, that a node's document of a type has in a field, as its
    /// value or as an item, and the local ids of those that have it.
    fn next_value(
        &self,
        node: u8,
        type_name: &str,
        field: &str,
        low: i64,
        high: i64,
    ) -> Option<(i64, &[u32])>
        ensures none { IfNone result ((q : ℤ) → low ≤ℤ q → q ≤ℤ high
            → places_where (has_number_in type_name.now field.now q) (rows_of node (seen self.now)) ≡ []) }

        // The number lies between, and none before it is that of a document.
        ensures from { IfSome result (λ r. low ≤ℤ r.0) }
        ensures to { IfSome result (λ r. r.0 ≤ℤ high) }
        ensures least { IfSome result (λ r. (q : ℤ) → low ≤ℤ q → q <ℤ r.0
            → places_where (has_number_in type_name.now field.now q) (rows_of node (seen self.now)) ≡ []) }

        // Its documents, one at least.
        ensures ids { IfSome result (λ r. r.1.now
            ≡ places_where (has_number_in type_name.now field.now r.0) (rows_of node (seen self.now))) }
        ensures some { IfSome result (λ r. 0 < length r.1.now) }

        // Numbers of documents are of 64 bits.
        ensures wide { (q : ℤ) → 0 < length (places_where (has_number_in type_name.now field.now q)
            (rows_of node (seen self.now))) → IsWide q };
}

/// What the sum of a search reads of a lane beside its lists. Nothing here takes memory.
pub trait Shown: Lists {
    /// The document at a local id of a node, as its schema lets it be seen.
    fn document(&self, node: u8, local: u32) -> Option<&Document>
        ensures { option_copied result ≡ row_at (rows_of node (Self.seen self.now)) local };

    /// How many keys the regions of the nodes have that are at a version and aren't stopped; they have no common key.
    fn measure(&self, version: u32) -> u64
        ensures value { result ≡ covered_at version (Self.seen self.now) }
        ensures valid { IsView (Self.seen self.now) };
}
