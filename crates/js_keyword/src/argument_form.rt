//! What the arguments of keywords have to be, and how they hold schemas.

/// What a keyword's argument has to be, where the keyword is no assertion (JSON Schema Core, sections 8, 10 and 11).
#[derive(Clone, Copy, Debug, Drop, PartialEq, Eq)]
pub enum ArgumentForm {
    /// A string.
    Text,
    /// A schema.
    OneSchema,
    /// An array of schemas, with one at least.
    ListedSchemas,
    /// An object whose members' values are schemas.
    NamedSchemas,
    /// Anything, or what the keyword's assertion asks for.
    Anything,
}

/// How a keyword's argument holds schemas.
#[derive(Clone, Copy, Debug, Drop, PartialEq, Eq)]
pub enum Holding {
    /// It is a schema.
    One,
    /// Its items are schemas.
    Listed,
    /// Its members' values are schemas.
    Named,
    /// It holds none.
    Nothing,
}
