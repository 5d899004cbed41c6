use std::marker::Model;

/// A place of finished schemas: where a schema stands. It is opaque, and means nothing for other schemas.
#[derive(Clone, Copy, Debug, Drop)]
pub struct Place {
    pub(crate) number: usize,
}

impl Model for Place {
    ghost use Rattle.std.specs.Prelude.{ℕ};

    ghost Value = { ℕ };

    ghost view = { λ p. p.number };

    ghost inverse = { λ n. record { number = n } };
}

/// One step from a place, through a keyword, to a place below it.
#[derive(Clone, Copy, Debug, Drop)]
pub enum Step<'s> {
    /// The keyword holds one schema.
    Alone,
    /// The keyword holds a list of schemas: the index of one.
    Index(usize),
    /// The keyword holds an object of schemas: the name of one.
    Name(&'s str),
}
