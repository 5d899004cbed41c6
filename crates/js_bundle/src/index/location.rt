//! Absolute locations (JSON Schema Core, section 12.3.2).
ghost use Rattle.std.specs.Prelude.{◌≡◌, ◌≤◌, ◌-◌, ◌++◌, ◌&&◌, ◌==◌, bytes_eq, codes, drop, length, option_map};
ghost use Rattle.std.specs.Prelude.{string_bytes, IfOk, OnOk, MatchOption};
ghost use Rattle.js_doc.specs.Fragment.{fragment_text};
ghost use Rattle.js_bundle.specs.code.PlaceNumbers.{tokens_of};
ghost use Rattle.js_bundle.specs.code.StoredLocation.{stored_location, repeated};
ghost use Rattle.js_bundle.specs.code.TextPrefix.{BeginsLocation, shared_with};
ghost use Rattle.js_bundle.specs.code.Scan.{site_of};
ghost use Rattle.js_bundle.specs.Url.{printed};

use crate::index::stored_location::{StoredLocation, is_long, repeated};
use crate::index::text_prefix::{Neighbours, TextPrefix, push_tokens};
use crate::scan::base_scope::BaseScope;
use crate::scan::site::Site;
use crate::uri;
use js_doc::{Memory, Notation, Pointer, Text, Token, push_fragment_token};
use std::alloc::Global;

/// The absolute location of what stands at the pointer in a resource, or of a keyword there.
///
/// # Errors
/// `Memory`.
pub(crate) fn absolute_location(
    alloc: Global,
    scope: &BaseScope,
    pointer: &Pointer,
    keyword: Option<&str>,
) -> Result<String, Memory>
    ensures { IfOk result (λ t. string_bytes t ≡ printed scope.now.base
        ++ (codes "#" ++ fragment_text (drop (length scope.now.resource) pointer.now ++ tokens_of keyword.entry))) }
{
    let mut text = String::new(alloc);
    push_resource_uri(&mut text, scope)?;
    let root = scope.resource.tokens().len();
    push_tokens(&mut text, Notation::Fragment, pointer.tokens(), root)?;
    push_keyword(&mut text, keyword)?;
    Ok(text)
}

// The resource's URI and a `#`.
fn push_resource_uri(text: &mut String, scope: &BaseScope) -> Result<(), Memory>
    ensures { OnOk result (string_bytes text.new ≡ string_bytes text.old ++ (printed scope.now.base ++ codes "#")) }
{
    text.push_str(uri::printed(&scope.base))?;
    text.push('#')?;
    Ok(())
}

fn push_keyword(text: &mut String, keyword: Option<&str>) -> Result<(), Memory>
    ensures { OnOk result (string_bytes text.new ≡ string_bytes text.old ++ fragment_text (tokens_of keyword.entry)) }
{
    match keyword {
        Some(keyword) => push_fragment_token(text, keyword),
        None => Ok(()),
    }
}

/// Makes what is kept of the location of a place, and its prefix, from the prefix of that of the place before it.
pub(crate) fn next_location(
    prefix: &mut TextPrefix,
    pair: Neighbours<'_>,
) -> Result<StoredLocation, Memory>
    requires before { MatchOption pair.before (Unit {0}) (λ b. BeginsLocation prefix.old (site_of b.now)) }
    requires shared { pair.shared ≡ shared_with (option_map (λ b. site_of b.now) pair.before) (site_of pair.site.now) }
    ensures begins { OnOk result (BeginsLocation prefix.new (site_of pair.entry.site.now)) }
    ensures location { IfOk result (λ l. l ≡ stored_location (site_of pair.entry.site.now)) }
{
    let site = pair.site;
    let root = site.own.resource.tokens().len();
    let way = way_from(site.pointer.tokens(), root);
    let count = way.len().saturating_sub(1);
    begin_location(prefix, pair, pair.shared.saturating_sub(root).min(count))?;
    let text = prefix.extend(pair.alloc, Notation::Fragment, way, count)?;
    Ok(StoredLocation {
        text: Text::new(text),
        is_fragment: is_long(uri::printed(&site.own.base)),
    })
}

// The tokens after those of the resource's root.
fn way_from(tokens: &[Token], root: usize) -> &[Token]
    ensures { result.now ≡ drop root tokens.now }
{
    match tokens.get(root..) {
        Some(way) => way,
        None => &[],
    }
}

// Leaves the prefix as it is where it is one of the place's location too, with no more tokens than that. Else it
// begins with no token.
fn begin_location(prefix: &mut TextPrefix, pair: Neighbours<'_>, most: usize) -> Result<(), Memory>
    requires before { MatchOption pair.before (Unit {0}) (λ b. BeginsLocation prefix.old (site_of b.now)) }
    requires most { most ≤ shared_with (option_map (λ b. site_of b.now) pair.before) (site_of pair.site.now)
        - length pair.site.now.own.value.resource }
    ensures begins { OnOk result (BeginsLocation prefix.new (site_of pair.entry.site.now)) }
    ensures within { OnOk result (prefix.new.tokens ≤ most) }
{
    let site = pair.site;
    match pair.before {
        Some(before) if begins_as(before, site) && prefix.tokens <= most => Ok(()),
        _ => begin_location_anew(prefix, &site.own),
    }
}

// Whether the two repeat the same of the URIs of their resources, whose roots are as deep.
fn begins_as(before: &Site<'_>, site: &Site<'_>) -> bool
    ensures { result ≡ (bytes_eq (repeated (printed before.now.own.value.base))
        (repeated (printed site.now.own.value.base))
        && length before.now.own.value.resource == length site.now.own.value.resource) }
{
    repeated(uri::printed(&before.own.base)) == repeated(uri::printed(&site.own.base))
        && before.own.resource.tokens().len() == site.own.resource.tokens().len()
}

fn begin_location_anew(prefix: &mut TextPrefix, scope: &BaseScope) -> Result<(), Memory>
    ensures text { OnOk result (string_bytes prefix.new.text ≡ repeated (printed scope.now.base) ++ codes "#") }
    ensures none { OnOk result (prefix.new.tokens ≡ 0) }
{
    prefix.tokens = 0;
    prefix.text.clear();
    prefix.text.push_str(repeated(uri::printed(&scope.base)))?;
    prefix.text.push('#')?;
    Ok(())
}
