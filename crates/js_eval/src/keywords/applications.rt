//! The applications that a keyword asks for, by its kind (Core, sections 8.2.3, 10 and 11).
ghost use Rattle.js_eval.specs.Applications.{asks_of};
ghost use Rattle.js_eval.specs.code.Asked.{IsAsking, asked};
ghost use Rattle.js_eval.specs.code.Holding.{IsIn};
ghost use Rattle.js_eval.specs.code.Starting.{IsAtPlace};
ghost use Rattle.js_eval.specs.code.Terms.{entries, instance_of, is_place, keyword_of, numbered_site, resource_of};
ghost use Rattle.js_eval.specs.code.Terms.{schemas_of, texts_of, value_of};
ghost use Rattle.std.specs.List.{dedup, list_all};
ghost use Rattle.std.specs.Prelude.{IfOk, map, nat_eq, true, ◌≡◌};

use crate::cursors::asking::Asking;
use crate::cursors::start::CursorStart;
use crate::evaluation::Path;
use crate::instance::Instance;
use crate::keywords::conditional::held_if;
use crate::keywords::in_place::held;
use crate::keywords::references::{referred, referred_dynamically};
use crate::keywords::{arrays, conditional, contains, in_place, objects, unevaluated};
use crate::order::keyword::KeywordAt;
use crate::searching::searchers::Searchers;
use js_bundle::Schemas;
use js_doc::Memory;
use js_keyword::Keyword;
use std::alloc::Global;

/// In which dynamic scope a keyword is evaluated, and on what value.
#[derive(Clone, Copy)]
pub(crate) struct Scene<'s, 'a> {
    /// The places of the schemas being applied, from the root's to that of the keyword's schema.
    pub path: &'s Path,
    /// The numbers of their schema resources, without consecutive repeats.
    pub scope: &'s [usize],
    /// The value.
    pub value: Instance<'a>,
}

/// What a keyword depends on among the other keywords of its schema.
#[derive(Clone, Copy)]
pub(crate) struct Facts<'s, 'a> {
    /// Whether the adjacent `if` succeeds, or None without an `if`.
    pub condition: Option<bool>,
    /// The names of the members that the others have evaluated.
    pub names: &'s [&'a str],
    /// The indexes of the items that the others have evaluated.
    pub indexes: &'s [usize],
}

/// The applications that a keyword asks for.
///
/// # Errors
/// `Memory` if an allocation fails.
pub(crate) fn asking_of_keyword<'a>(
    alloc: Global,
    schemas: &'a Schemas,
    at: &KeywordAt<'a>,
    searchers: &Searchers<'a>,
    scene: Scene<'_, 'a>,
    facts: Facts<'_, 'a>,
) -> Result<Asking<'a>, Memory>
    requires place { IsAtPlace schemas.now at.now }
    requires path { list_all (is_place schemas.now) scene.path.now ≡ true }
    requires resources { scene.scope.now ≡ dedup nat_eq (map (resource_of schemas.now) scene.path.now) }
    requires keyword { IsIn (value_of at.now.schema.now) (keyword_of at.now.keyword) }
    ensures asked { IfOk result (λ a. asked schemas.now a
        ≡ asks_of (schemas_of schemas.now) (map (numbered_site schemas.now) scene.entry.path.now)
        (numbered_site schemas.now at.now.place) (entries (value_of at.now.schema.now))
        (instance_of scene.entry.value) facts.entry.condition (texts_of facts.entry.names.now) facts.entry.indexes.now
        (keyword_of at.now.keyword) at.now.keyword.which) }
    ensures is { IfOk result (λ a. IsAsking schemas.now a) }
{
    let Scene { path, scope, value } = scene;
    let condition = facts.condition;
    let start = CursorStart {
        alloc,
        schemas,
        at,
        value,
    };
    match at.keyword.which {
        Keyword::Ref => Ok(referred(schemas, at.place, at.schema, value)),
        Keyword::DynamicRef => Ok(referred_dynamically(
            schemas, at.place, at.schema, path, scope, value,
        )),
        Keyword::AllOf => Ok(in_place::each_in_list(&start)),
        Keyword::AnyOf => Ok(in_place::each_in_list(&start)),
        Keyword::OneOf => Ok(in_place::each_in_list(&start)),
        Keyword::Not => Ok(held(&start)),
        Keyword::If => Ok(held(&start)),
        Keyword::Then => Ok(held_if(&start, condition, true)),
        Keyword::Else => Ok(held_if(&start, condition, false)),
        Keyword::DependentSchemas => conditional::dependent(&start),
        Keyword::PrefixItems => Ok(arrays::prefix(&start)),
        Keyword::Items => Ok(arrays::following(&start)),
        Keyword::Contains => Ok(contains::every(&start)),
        Keyword::Properties => objects::properties(&start),
        Keyword::PatternProperties => objects::patterns(&start, searchers),
        Keyword::AdditionalProperties => objects::additional(&start),
        Keyword::PropertyNames => objects::property_names(&start),
        Keyword::UnevaluatedItems => unevaluated::unevaluated_items(&start, facts.indexes),
        Keyword::UnevaluatedProperties => unevaluated::unevaluated_properties(&start, facts.names),
        Keyword::Assertion(_) => Ok(Asking::One(None)),
        Keyword::Other(_) => Ok(Asking::One(None)),
    }
}
