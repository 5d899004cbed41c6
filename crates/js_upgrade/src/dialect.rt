//! The dialects, and the URIs that name them.
ghost use Rattle.std.specs.Prelude.{◌≡◌, option_map};
ghost use Rattle.js_upgrade.specs.Dialect.{after_prefix, dialect_named, is_before, draft_number, version_named};
ghost use Rattle.js_upgrade.specs.code.UsualRoot.{is_same_dialect};
ghost use Rattle.js_upgrade.specs.code.UsualUri.{after_scheme, is_no_fragment, is_usual_uri, usual_path};

/// A draft of JSON Schema.
#[derive(Clone, Copy, Debug, PartialEq, Eq)]
pub enum Dialect {
    /// draft-03
    Draft03,
    /// draft-04
    Draft04,
    /// draft-06
    Draft06,
    /// draft-07
    Draft07,
    /// 2019-09
    Draft2019,
    /// 2020-12
    Draft2020,
}

impl Dialect {
    /// The dialect that a URI names, as `$schema` names it, or None where it names none of the six.
    pub fn of_uri(uri: &str) -> Option<Dialect>
        ensures { result ≡ dialect_named uri.now }
    {
        match after_prefix("https://json-schema.org/draft", uri) {
            Some(version) => version_named(version),
            None => version_named(after_prefix("http://json-schema.org/draft", uri)?),
        }
    }

    /// Whether this draft is older than the other.
    pub fn is_before(self, other: Dialect) -> bool
        ensures { result ≡ is_before self other }
    {
        self.draft_number() < other.draft_number()
    }

    /// Whether it is the URI that most of its schemas have in `$schema`, with `http` or `https`, and with an empty
    /// fragment or none.
    pub(crate) fn is_usual_uri(self, uri: &str) -> bool
        ensures { result ≡ is_usual_uri self uri.now }
    {
        match after_scheme(uri) {
            Some(path) => is_no_fragment(after_prefix(self.usual_path(), path)),
            None => false,
        }
    }

    fn usual_path(self) -> &'static str
        ensures { result.now ≡ usual_path self }
    {
        match self {
            Dialect::Draft03 => "://json-schema.org/draft-03/schema",
            Dialect::Draft04 => "://json-schema.org/draft-04/schema",
            Dialect::Draft06 => "://json-schema.org/draft-06/schema",
            Dialect::Draft07 => "://json-schema.org/draft-07/schema",
            Dialect::Draft2019 => "://json-schema.org/draft/2019-09/schema",
            Dialect::Draft2020 => "://json-schema.org/draft/2020-12/schema",
        }
    }

    /// Whether it is the same draft.
    pub(crate) fn is_draft(self, other: Dialect) -> bool
        ensures { result ≡ is_same_dialect self other }
    {
        self.draft_number() == other.draft_number()
    }

    fn draft_number(self) -> u8
        ensures { result ≡ draft_number self }
    {
        match self {
            Dialect::Draft03 => 0,
            Dialect::Draft04 => 1,
            Dialect::Draft06 => 2,
            Dialect::Draft07 => 3,
            Dialect::Draft2019 => 4,
            Dialect::Draft2020 => 5,
        }
    }
}

// What stands behind `http` or `https`.
fn after_scheme(uri: &str) -> Option<&str>
    ensures { option_map (λ t. t.now) result ≡ after_scheme uri.now }
{
    let rest = after_prefix("http", uri)?;
    Some(after_prefix("s", rest).unwrap_or(rest))
}

// Whether a URI that goes on with this has an empty fragment, or none.
fn is_no_fragment(rest: Option<&str>) -> bool
    ensures { result ≡ is_no_fragment (option_map (λ t. t.now) rest.entry) }
{
    match rest {
        Some(rest) => rest.is_empty() || rest == "#",
        None => false,
    }
}

// What stands behind the prefix.
pub(crate) fn after_prefix<'t>(prefix: &str, text: &'t str) -> Option<&'t str>
    ensures { option_map (λ t. t.now) result ≡ after_prefix prefix.now text.now }
{
    text.strip_prefix(prefix)
}

#[tactic(auto, unfolding(crate::specs::Dialect::version_named))]
fn version_named(path: &str) -> Option<Dialect>
    ensures { result ≡ version_named path.now }
{
    match path {
        "-03/schema" | "-03/schema#" | "-03/hyper-schema" | "-03/hyper-schema#" => {
            Some(Dialect::Draft03)
        }
        "-04/schema" | "-04/schema#" | "-04/hyper-schema" | "-04/hyper-schema#" => {
            Some(Dialect::Draft04)
        }
        "-06/schema" | "-06/schema#" | "-06/hyper-schema" | "-06/hyper-schema#" => {
            Some(Dialect::Draft06)
        }
        "-07/schema" | "-07/schema#" | "-07/hyper-schema" | "-07/hyper-schema#" => {
            Some(Dialect::Draft07)
        }
        "/2019-09/schema" | "/2019-09/schema#" => Some(Dialect::Draft2019),
        "/2019-09/hyper-schema" | "/2019-09/hyper-schema#" => Some(Dialect::Draft2019),
        "/2020-12/schema" | "/2020-12/schema#" => Some(Dialect::Draft2020),
        _ => None,
    }
}
