//! Several fields of bits.

ghost use Rattle.std.specs.Prelude.{◌≡◌, ◌≤◌, ◌++◌, ◌∷◌, [], true, length};
ghost use Rattle.fixed_fields.specs.Fields.{fields_of};

use fixed_bits::Format;

/// The most fields of a list: an object of JSON for each fits the longest answer about a word.
pub const MAX_FIELDS: usize = 32;

/// Some bits of a word, and the format of their number.
#[derive(Clone, Copy, Debug, PartialEq, Eq)]
pub struct Field {
    /// The lowest bit.
    pub low: u8,
    /// The format, of as many bits as the field.
    pub format: Format,
}

/// At most 32 fields, in order.
#[derive(Clone, Copy)]
pub struct FieldList {
    // The first `count` are the fields.
    items: [Field; MAX_FIELDS],
    count: usize,
}

impl FieldList {
    /// Returns a list of no fields.
    pub fn new() -> FieldList
        ensures { fields_of result ≡ [] }
    {
        let any = Field {
            low: 0,
            format: Format::of(false, 1, 0),
        };
        FieldList {
            items: [any; MAX_FIELDS],
            count: 0,
        }
    }

    /// Returns the fields.
    pub fn as_slice(&self) -> &[Field]
        ensures fields { result.now ≡ fields_of self.now }
        ensures most { length result.now ≤ 32 }
    {
        &self.items[..self.count.min(MAX_FIELDS)]
    }

    /// Appends a field. Returns false, and appends nothing, if there is no room for it.
    pub fn push(&mut self, field: Field) -> bool
        ensures pushed { result ≡ true → fields_of self.new ≡ fields_of self.old ++ field ∷ [] }
        ensures full { ¬ (result ≡ true) → (self.new ≡ self.old) × (length (fields_of self.old) ≡ 32) }
    {
        if self.count >= MAX_FIELDS {
            return false;
        }
        self.items[self.count] = field;
        self.count += 1;
        true
    }
}
