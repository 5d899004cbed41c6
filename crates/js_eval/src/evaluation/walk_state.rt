//! The state of a walk.
ghost use Rattle.js_eval.specs.Walk.Steps.{MarkOf, StartOf};

use crate::evaluation::dynamic_scope::DynamicScope;
use crate::evaluation::path::Path;
use crate::evaluation::pointer_text::PointerText;
use crate::evaluation::trail::Trail;

/// The state of a walk: the places of the schemas being applied and their schema resources, the keyword location and
/// the instance location, how many more nodes the result may have, and the members and items evaluated so far.
#[derive(Drop)]
pub(crate) struct WalkState<M, H: PointerText + Drop> {
    pub(crate) path: Path,
    pub(crate) scope: DynamicScope,
    pub(crate) keyword: Trail<H>,
    pub(crate) instance: Trail<H>,
    pub(crate) left: usize,
    pub(crate) names: Vec<M>,
    pub(crate) indexes: Vec<usize>,
}

/// How much had been evaluated, and how long the dynamic scope was, when a schema's node opened.
#[derive(Clone, Copy)]
pub(crate) struct Start {
    pub(crate) names: usize,
    pub(crate) indexes: usize,
    pub(crate) scope: usize,
}

/// How much had been evaluated, and where the trails were, before a keyword's node or an application.
#[derive(Drop)]
pub(crate) struct Mark<K: Drop> {
    pub(crate) names: usize,
    pub(crate) indexes: usize,
    pub(crate) keyword: K,
    pub(crate) instance: K,
}

impl<M, H: PointerText + Drop> WalkState<M, H> {
    /// The present lengths of the lists and of the dynamic scope.
    pub(crate) fn start(&self) -> Start
        ensures { StartOf self.now result }
    {
        Start {
            names: self.names.len(),
            indexes: self.indexes.len(),
            scope: self.scope.len(),
        }
    }

    /// The present lengths of the lists and positions of the trails.
    pub(crate) fn current_marks(&self) -> Mark<H::Mark>
        ensures { MarkOf H.length_at self.now result }
    {
        Mark {
            names: self.names.len(),
            indexes: self.indexes.len(),
            keyword: self.keyword.mark(),
            instance: self.instance.mark(),
        }
    }
}
