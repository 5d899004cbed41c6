//! The dynamic scope of a walk (Core, section 7.1).
ghost use Rattle.std.specs.Prelude.{◌≡◌, [], OnOk, length, take};
ghost use Rattle.js_eval.specs.Walk.DynamicScope.{HasGrown, ends_with};

use js_doc::Memory;
use std::alloc::Global;
use std::marker::Model;

/// The numbers of the schema resources of a path's places, from the root's on, without consecutive repeats. Contracts
/// see a list of numbers.
#[derive(Drop)]
pub(crate) struct DynamicScope {
    numbers: Vec<usize>,
}

impl Model for DynamicScope {
    ghost use Rattle.std.specs.Prelude.{List, ℕ};

    ghost Value = { List ℕ };

    ghost view = { λ s. s.numbers.items };
}

impl DynamicScope {
    /// The dynamic scope of an empty path.
    pub(crate) fn new(alloc: Global) -> DynamicScope
        ensures { result ≡ [] }
    {
        DynamicScope {
            numbers: Vec::new(alloc),
        }
    }

    /// The number of resources.
    pub(crate) fn len(&self) -> usize
        ensures { result ≡ length self.now }
    {
        self.numbers.len()
    }

    /// Enters a place of the resource with this number.
    ///
    /// # Errors
    /// `Memory`.
    pub(crate) fn push(&mut self, resource: usize) -> Result<(), Memory>
        ensures { OnOk result (HasGrown self.old resource self.new) }
    {
        if !is_last(self.numbers.as_slice(), resource) {
            self.numbers.push(resource)?;
        }
        Ok(())
    }

    /// Goes back to the first `len` resources.
    pub(crate) fn go_back_to(&mut self, len: usize)
        ensures { self.new ≡ take len self.old }
    {
        self.numbers.truncate(len);
    }

    /// The numbers of the resources.
    pub(crate) fn resource_numbers(&self) -> &[usize]
        ensures { result.now ≡ self.now }
    {
        self.numbers.as_slice()
    }
}

fn is_last(numbers: &[usize], number: usize) -> bool
    ensures { result ≡ ends_with numbers.now number }
{
    match numbers.last() {
        Some(last) => number == *last,
        None => false,
    }
}
