//! References to what was copied, as most are written: the name of the copy is the text of the pointer.
ghost use Rattle.std.specs.Prelude.{◌≡◌, IfOk, IfSome, None, true};
ghost use Rattle.std.specs.List.{list_all};
ghost use Rattle.js_upgrade.specs.Fault.{target_kind};
ghost use Rattle.js_upgrade.specs.Reference.{followed};
ghost use Rattle.js_upgrade.specs.Seen.{resource_seen};
ghost use Rattle.js_upgrade.specs.Url.{uri_joined};
ghost use Rattle.js_upgrade.specs.code.CopiedTarget.{IsCopiedTarget, copied_text, is_path, is_path_byte};
ghost use Rattle.js_upgrade.specs.code.Table.{all_of};

use crate::copy_name::{has_member_named, is_rooted};
use crate::definitions::has_in;
use crate::dialect::after_prefix;
use crate::resource::Resource;
use crate::resource_table::resource_numbered;
use crate::scope::Scope;
use crate::uri::local_fragment;
use js_doc::{Memory, Text, push_fragment_token};
use std::alloc::Global;

/// The name of the copy that the reference leads to, if that is the pointer's text. None where the target has to be
/// looked for.
pub(crate) fn copied_target<'t>(scope: &Scope<'_>, reference: &'t str) -> Option<&'t str>
    ensures follows { IfSome result (λ n. followed (all_of scope.now.resources.now) reference.now
        (uri_joined scope.now.base.now reference.now) ≡ copied_text n.now) }
    ensures leads { IfSome result (λ n. target_kind (all_of scope.now.resources.now)
        (uri_joined scope.now.base.now reference.now) ≡ None) }
{
    match resource_numbered(scope.resources, scope.here) {
        Some(resource) => {
            let fragment = local_fragment(reference)?;
            if is_copied_target(resource, fragment) {
                Some(fragment)
            } else {
                None
            }
        }
        None => None,
    }
}

fn is_copied_target(resource: &Resource<'_>, fragment: &str) -> bool
    ensures { result ≡ true → IsCopiedTarget (resource_seen resource.now) fragment.now }
{
    resource.usual
        && (has_member_named(resource.copies, fragment)
            && (is_path(fragment) && has_in(resource.definitions, fragment)))
}

fn is_path(fragment: &str) -> bool
    ensures { result ≡ is_path fragment.now }
{
    is_rooted(fragment)
        && (are_path_bytes(fragment.as_bytes()) && after_prefix("/$defs", fragment).is_none())
}

fn are_path_bytes(bytes: &[u8]) -> bool
    ensures { result ≡ list_all is_path_byte bytes.now }
{
    bytes.iter().all(|byte| is_path_byte(*byte))
}

// Neither `%` nor `~`.
fn is_path_byte(byte: u8) -> bool
    ensures { result ≡ is_path_byte byte }
{
    !(byte == b'%') && !(byte == b'~')
}

/// The text of a reference to the copy with this name.
///
/// # Errors
/// `Memory`.
pub(crate) fn copied_text(alloc: Global, name: &str) -> Result<Text, Memory>
    ensures { IfOk result (λ t. t ≡ copied_text name.now) }
{
    let mut text = String::with_capacity(alloc, name.len().saturating_add(16))?;
    text.push_str("#/$defs")?;
    push_fragment_token(&mut text, name)?;
    Ok(Text::new(text))
}
