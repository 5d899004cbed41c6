//! Where a fault in a copy stands: at the place of what was copied.
ghost use Rattle.std.specs.Prelude.{◌≡◌, ◌∷◌, ◌++◌, IfOk, OnOk, map, option_map, slice_get, unwrap_or};
ghost use Rattle.js_doc.specs.Pointer.{Tokens};
ghost use Rattle.js_upgrade.specs.CopyName.{original_place, place_named, uncopied};
ghost use Rattle.js_upgrade.specs.Fault.{in_original, place_by, place_in};
ghost use Rattle.js_upgrade.specs.Seen.{copies_seen, source_of};

use crate::copies::copies_at;
use crate::copy_name::{definitions_name, has_member_named, place_named};
use crate::dialect::Dialect;
use crate::documents::{SourceDocument, source_dialect};
use crate::fault::UpgradeFault;
use js_doc::{Members, Memory, Pointer, Token};
use std::alloc::Global;

/// The fault, with its place in the document as it was without copies.
///
/// # Errors
/// `Memory`.
pub(crate) fn in_original(
    alloc: Global,
    copies: &[Members],
    sources: &[SourceDocument],
    fault: UpgradeFault,
) -> Result<UpgradeFault, Memory>
    ensures { IfOk result (λ f. f ≡ in_original copies.now (map source_of sources.now) fault) }
{
    let UpgradeFault {
        document,
        place,
        kind,
    } = fault;
    let copied = copies_at(copies, document);
    match place_in(alloc, copied, &place, source_at(sources, document))? {
        Some(place) => Ok(UpgradeFault {
            document,
            place,
            kind,
        }),
        None => Ok(UpgradeFault {
            document,
            place,
            kind,
        }),
    }
}

fn source_at(sources: &[SourceDocument], number: usize) -> Option<&SourceDocument>
    ensures { option_map (λ s. source_of s.now) result ≡ slice_get (map source_of sources.now) number }
{
    match sources.get(number) {
        Some(source) => Some(source),
        None => None,
    }
}

// Another place, or None where it stays.
fn place_in(
    alloc: Global,
    copies: Option<&Members>,
    place: &Pointer,
    source: Option<&SourceDocument>,
) -> Result<Option<Pointer>, Memory>
    ensures { IfOk result (λ p. unwrap_or p place.now ≡ place_in (copies_seen copies.entry) place.now
        (option_map (λ s. source_of s.now) source.entry)) }
{
    match source {
        Some(source) => place_by(alloc, copies, place, source_dialect(source)),
        None => Ok(None),
    }
}

fn place_by(
    alloc: Global,
    copies: Option<&Members>,
    place: &Pointer,
    dialect: Option<Dialect>,
) -> Result<Option<Pointer>, Memory>
    ensures { IfOk result (λ p. unwrap_or p place.now ≡ place_by (copies_seen copies.entry) place.now dialect) }
{
    match dialect {
        Some(dialect) => uncopied(alloc, dialect, copies, place.tokens()),
        None => Ok(None),
    }
}

fn uncopied(
    alloc: Global,
    dialect: Dialect,
    copies: Option<&Members>,
    tokens: &[Token],
) -> Result<Option<Pointer>, Memory>
    ensures { IfOk result (λ p. unwrap_or p tokens.now ≡ uncopied dialect (copies_seen copies.entry) tokens.now) }
{
    match tokens.split_first() {
        Some((keyword, below)) => uncopied_below(alloc, dialect, copies, keyword.as_str(), below),
        None => Ok(None),
    }
}

fn uncopied_below(
    alloc: Global,
    dialect: Dialect,
    copies: Option<&Members>,
    keyword: &str,
    below: &[Token],
) -> Result<Option<Pointer>, Memory>
    ensures { IfOk result (λ p. unwrap_or p (keyword.now ∷ below.now)
        ≡ uncopied dialect (copies_seen copies.entry) (keyword.now ∷ below.now)) }
{
    match below.split_first() {
        Some((name, rest)) => {
            if keyword == definitions_name(dialect) && has_member_named(copies, name.as_str()) {
                original_place(alloc, name.as_str(), rest)
            } else {
                Ok(None)
            }
        }
        None => Ok(None),
    }
}

fn original_place(alloc: Global, name: &str, rest: &[Token]) -> Result<Option<Pointer>, Memory>
    ensures { IfOk result (λ p. (tokens : Tokens)
        → unwrap_or p tokens ≡ original_place (place_named name.now) rest.now tokens) }
{
    match place_named(alloc, name)? {
        Some(place) => {
            let mut place = place;
            push_all(&mut place, rest)?;
            Ok(Some(place))
        }
        None => Ok(None),
    }
}

fn push_all(out: &mut Pointer, tokens: &[Token]) -> Result<(), Memory>
    ensures { OnOk result (out.new ≡ out.old ++ tokens.now) }
{
    for i in 0..tokens.len() {
        out.push(tokens[i].as_str())?;
    }
    Ok(())
}
