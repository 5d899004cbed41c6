//! A reporter that ignores every event.
use crate::evaluation::{KeywordVerdict, PointerText, Reporter, Trail, World};
use js_bundle::Place;
use js_doc::Memory;
use std::alloc::Global;

/// Ignores every event, for a walk that only needs the verdict.
#[derive(Clone, Copy)]
pub(crate) struct Silent;

impl<W: World, H: PointerText + Drop> Reporter<W, H> for Silent {
    ghost takes = { λ _ _ _. Unit {0} };

    #[inline(always)]
    fn is_quiet(&self) -> bool {
        true
    }

    fn open_schema(
        &mut self,
        _alloc: Global,
        _world: &W,
        _place: Place,
        _keyword_location: &Trail<H>,
        _instance_location: &Trail<H>,
    ) -> Result<(), Memory> {
        Ok(())
    }

    fn open_keyword(
        &mut self,
        _alloc: Global,
        _world: &W,
        _place: Place,
        _keyword: W::Keyword,
        _keyword_location: &Trail<H>,
        _instance_location: &Trail<H>,
    ) -> Result<(), Memory> {
        Ok(())
    }

    fn close_keyword(
        &mut self,
        _alloc: Global,
        _world: &W,
        _place: Place,
        _value: W::Value,
        _keyword: W::Keyword,
        _judged: KeywordVerdict,
        _matching: u64,
        _names: &[W::Name],
        _indexes: &[usize],
    ) -> Result<(), Memory> {
        Ok(())
    }

    fn leaf_keyword(
        &mut self,
        _alloc: Global,
        _world: &W,
        _place: Place,
        _value: W::Value,
        _keyword: W::Keyword,
        _judged: KeywordVerdict,
        _matching: u64,
        _keyword_location: &mut Trail<H>,
        _instance_location: &Trail<H>,
    ) -> Result<(), Memory> {
        Ok(())
    }

    fn close_schema(
        &mut self,
        _alloc: Global,
        _world: &W,
        _place: Place,
        _schema: W::Schema,
        _valid: bool,
    ) -> Result<(), Memory> {
        Ok(())
    }
}
