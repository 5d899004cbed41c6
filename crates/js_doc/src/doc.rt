ghost use Rattle.js_doc.specs.Lawful.{IsLawful};
ghost use Rattle.js_doc.specs.Seen.{value_of};

use crate::items::Items;
use crate::members::Members;
use crate::string::Text;
use crate::whole::Whole;

/// A JSON value whose numbers are those of [`Whole`] (RFC 8259, section 3; JSON Schema Core, section 4.2.1).
/// `specs/Value.antt` has what it means: contracts compare values, and never memory.
#[cycle(doc)]
#[derive(Debug, Drop)]
pub enum Doc {
    Null,
    Truth(bool),
    Whole(Whole),
    Text(Text),
    List(Items),
    Members(Members),
}

impl Doc {
    /// Gives a proof what holds of each value: at each level an object's names ascend by their bytes, each once, and a
    /// list has fewer than 2^64 items. It does nothing.
    pub fn lawful(&self)
        ensures { IsLawful (value_of self.now) }
    {
        match self {
            Doc::List(items) => items.lawful_items(),
            Doc::Members(members) => members.lawful_members(),
            _ => {}
        }
    }
}
