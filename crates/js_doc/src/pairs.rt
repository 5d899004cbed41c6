//! The members of an object, one after the other.
ghost use Rattle.std.specs.Prelude.{◌≡◌, length, ⊤};
ghost use Rattle.std.specs.Iterator.{at_most};
ghost use Rattle.std.specs.Map.Iter.{TakesFirst, deref_pair};

use crate::doc::Doc;
use crate::string::Text;
use std::alloc::AllocError;
use std::iter::FusedIterator;
use std::marker::Model;
use std::slice;

/// The members of an object that are left, by name ascending.
#[derive(Drop)]
pub struct Pairs<'a> {
    rest: slice::Iter<'a, (Text, Doc)>,
}

impl<'a> Model for Pairs<'a> {
    ghost use Rattle.std.specs.Prelude.{List, ℕ};
    ghost use Rattle.std.specs.Slice.Iter.{iter_rest};
    ghost use Rattle.js_doc.specs.declared.doc.Doc.{Doc};

    ghost Value = { List (List ℕ × Doc) };

    ghost use Rattle.std.specs.Coded.{codes};
    ghost use Rattle.js_doc.specs.Coding.{value_code};

    ghost coded = { Prim.hlevel (codes, value_code) };

    ghost view = { λ p. iter_rest p.rest };
}

impl<'a> Pairs<'a> {
    pub(crate) fn new(entries: &'a [(Text, Doc)]) -> Pairs<'a>
        ensures { result ≡ entries.now }
    {
        Pairs {
            rest: entries.iter(),
        }
    }
}

impl<'a> Iterator for Pairs<'a> {
    type Item = (&'a Text, &'a Doc);

    ghost next_gives = { TakesFirst deref_pair };

    ghost remaining = { λ s. at_most (length s) };

    #[inline]
    fn next(&mut self) -> Option<(&'a Text, &'a Doc)> {
        let (name, doc) = self.rest.next()?;
        Some((name, doc))
    }

    fn size_hint(&self) -> (usize, Option<usize>) {
        let len = self.len();
        (len, Some(len))
    }
}

impl<'a> FusedIterator for Pairs<'a> {}

impl<'a> ExactSizeIterator for Pairs<'a> {
    fn len(&self) -> usize {
        self.rest.len()
    }
}

impl<'a> Clone for Pairs<'a> {
    ghost is_clone = { λ s r. r ≡ s };

    ghost is_infallible = { λ _. ⊤ };

    fn clone(&self) -> Result<Self, AllocError> {
        Ok(Pairs {
            rest: self.rest.clone()?,
        })
    }
}
