use js_doc::Doc;
use url::Url;

/// A schema document, under its URI.
#[derive(Drop)]
pub struct Document {
    pub uri: Url,
    pub root: Doc,
}
