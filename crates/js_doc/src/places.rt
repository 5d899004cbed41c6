//! Where a name stands among members whose names ascend.
ghost use Rattle.std.specs.Prelude.{◌≡◌, map, IfOk, IfErr};
ghost use Rattle.js_doc.specs.Members.{IsAscending};
ghost use Rattle.js_doc.specs.Seen.{pair_of};
ghost use Rattle.js_doc.specs.code.Places.{StandsAt, GoesTo};

use crate::doc::Doc;
use crate::names::name_order;
use crate::string::Text;
use std::cmp::Ordering;

// The rank of the name's member, or the rank that it would have.
pub(crate) fn search(entries: &[(Text, Doc)], name: &str) -> Result<usize, usize>
    requires { IsAscending (map pair_of entries.now) }
    ensures ok { IfOk result (StandsAt name.now entries.now) }
    ensures err { IfErr result (GoesTo name.now (map pair_of entries.now)) }
{
    let mut low = 0;
    let mut high = entries.len();
    while low < high {
        let middle = low + (high - low) / 2;
        match name_order(name, entries[middle].0.as_str()) {
            Ordering::Less => high = middle,
            Ordering::Equal => return Ok(middle),
            Ordering::Greater => low = middle + 1,
        }
    }
    Err(low)
}

// The same, at once for a name that is above all others.
pub(crate) fn place(entries: &[(Text, Doc)], name: &str) -> Result<usize, usize>
    requires { IsAscending (map pair_of entries.now) }
    ensures ok { IfOk result (StandsAt name.now entries.now) }
    ensures err { IfErr result (GoesTo name.now (map pair_of entries.now)) }
{
    let len = entries.len();
    if len == 0 {
        return Err(0);
    }
    match name_order(name, entries[len - 1].0.as_str()) {
        Ordering::Greater => Err(len),
        Ordering::Equal => Ok(len - 1),
        Ordering::Less => search(entries, name),
    }
}
