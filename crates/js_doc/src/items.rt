ghost use Rattle.std.specs.Prelude.{◌≡◌, ◌↔◌, [], IsTrue, map, length};

use crate::doc::Doc;
use std::marker::Model;

/// The items of an array, in order (RFC 8259, section 5).
#[cycle(doc)]
#[derive(Debug)]
pub struct Items {
    pub(crate) items: Vec<Doc>,
}

// By hand, so that it is proved here alone, and crates that own items call it.
impl Drop for Items {
    #[cycle(dropped)]
    fn drop(self) {
        let Items { items: _ } = self;
    }
}

impl Model for Items {
    ghost use Rattle.std.specs.Prelude.{map};
    ghost use Rattle.js_doc.specs.Value.{Values};
    ghost use Rattle.js_doc.specs.Nesting.{values_depth};
    ghost use Rattle.js_doc.specs.Coding.{values_code};

    ghost Value = { Values };

    ghost coded = { values_code };

    ghost use Rattle.js_doc.specs.Seen.{value_of};

    ghost view = { λ l. map value_of l.items.items };

    ghost use Rattle.js_doc.specs.Lawful.{IsLawful};
    ghost use Rattle.js_doc.specs.Seen.{items_seen};
    ghost use Rattle.js_doc.specs.Value.{list};

    ghost invariant = { λ l. IsLawful (list (items_seen l.items.items)) };

    ghost size = { values_depth };

    ghost use Rattle.js_doc.specs.Falls.{items_fall};

    ghost size_decreases = { λ l h. items_fall l.items.items };
}

impl Items {
    ghost use Rattle.js_doc.specs.Seen.{value_of};
    ghost use Rattle.js_doc.specs.Lawful.{IsLawful};
    ghost use Rattle.js_doc.specs.Value.{list, items};

    /// The items of a vector.
    pub fn new(items: Vec<Doc>) -> Items
        ensures { result ≡ map value_of items.items }
    {
        for doc in &items {
            doc.lawful();
        }
        Items { items }
    }

    pub(crate) fn lawful_items(&self)
        ensures { IsLawful (list (items self.now)) }
    {
        let _ = &self.items;
    }

    /// Whether there is no item.
    pub fn is_empty(&self) -> bool
        ensures { IsTrue result ↔ (self.now ≡ []) }
    {
        self.items.is_empty()
    }

    /// How many items there are.
    pub fn len(&self) -> usize
        ensures { result ≡ length self.now }
    {
        self.items.len()
    }

    /// The items, lent.
    pub fn as_slice(&self) -> &[Doc]
        ensures { map value_of result.now ≡ self.now }
    {
        self.items.as_slice()
    }

    /// The vector that the items were made from.
    pub fn into_vec(self) -> Vec<Doc>
        ensures { map value_of result.items ≡ self }
    {
        let Items { items: vector } = self;
        vector
    }
}
