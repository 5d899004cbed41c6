//! What a keyword has evaluated, given what its applications have.
ghost use Rattle.std.specs.Prelude.{◌≡◌, ◌++◌, OnOk, take, drop, cond, option_to_list};
ghost use Rattle.js_eval.specs.Evaluated.{origins};
ghost use Rattle.js_eval.specs.Walk.Keeping.{keeps};

use js_doc::Memory;
use js_keyword::Keyword;

/// Which members or items a keyword has evaluated.
#[derive(Clone, Copy)]
pub(crate) enum Origin {
    /// Those that it applies a schema to.
    Applied,
    /// Those that it successfully applies a schema to.
    Holding,
    /// Those that the schemas which it applies have evaluated.
    Below,
    /// None.
    Nowhere,
}

/// After an application, replaces the entries from index `from` on, which the applied schema has evaluated, by those
/// that the keyword has. `own`: the member or item that the schema was applied to; `holds`: whether the application
/// succeeded.
pub(crate) fn keep<M: Copy>(
    list: &mut Vec<M>,
    from: usize,
    source: Origin,
    holds: bool,
    own: Option<M>,
) -> Result<(), Memory>
    ensures { OnOk result (list.new.items ≡ take from list.old.items
        ++ keeps source holds (option_to_list own) (drop from list.old.items)) }
{
    match source {
        Origin::Below => Ok(()),
        Origin::Applied => {
            list.truncate(from);
            push_given(list, own)
        }
        Origin::Holding => {
            list.truncate(from);
            if holds { push_given(list, own) } else { Ok(()) }
        }
        Origin::Nowhere => {
            list.truncate(from);
            Ok(())
        }
    }
}

fn push_given<M: Copy>(list: &mut Vec<M>, own: Option<M>) -> Result<(), Memory>
    ensures { OnOk result (list.new.items ≡ list.old.items ++ option_to_list own) }
{
    if let Some(own) = own {
        list.push(own)?;
    }
    Ok(())
}

/// Drops the entries from index `from` on, unless they stay.
pub(crate) fn cut_unless<M: Copy>(list: &mut Vec<M>, from: usize, stays: bool)
    ensures { list.new.items ≡ cond stays list.old.items (take from list.old.items) }
{
    if !stays {
        list.truncate(from);
    }
}

/// Which members, and which items, a keyword of this kind has evaluated.
pub(crate) fn origins_of(kind: Keyword) -> (Origin, Origin)
    ensures { result ≡ origins kind }
{
    match kind {
        Keyword::Properties
        | Keyword::PatternProperties
        | Keyword::AdditionalProperties
        | Keyword::UnevaluatedProperties => (Origin::Applied, Origin::Nowhere),
        Keyword::PrefixItems | Keyword::Items | Keyword::UnevaluatedItems => {
            (Origin::Nowhere, Origin::Applied)
        }
        Keyword::Contains => (Origin::Nowhere, Origin::Holding),
        Keyword::Ref
        | Keyword::DynamicRef
        | Keyword::AllOf
        | Keyword::AnyOf
        | Keyword::OneOf
        | Keyword::If
        | Keyword::Then
        | Keyword::Else
        | Keyword::DependentSchemas => (Origin::Below, Origin::Below),
        _ => (Origin::Nowhere, Origin::Nowhere),
    }
}
