//! Searches with patterns during a walk, with what is kept between them.
ghost use Rattle.std.specs.Prelude.{◌≡◌, IfOk, MatchOption, true};
ghost use Rattle.std.specs.List.{list_any};
ghost use Rattle.js_assert.specs.Pattern.{matches};
ghost use Rattle.js_bundle.specs.Schemas.{is_place};
ghost use Rattle.js_eval.specs.code.Patterns.{IsPatternAt};

use crate::searching::pattern_answers::AllAnswers;
use crate::searching::recent_answers::RecentAnswers;
use js_assert::{Pattern, Searcher};
use js_bundle::{Place, Schemas};
use js_doc::{Members, Memory};
use std::alloc::Global;
use std::cell::RefCell;

/// The maximal number of searchers kept.
const MOST_CACHED: usize = 2_048;

/// The number of bytes searched after which all cached searchers are dropped. The memory of a searcher grows with the
/// bytes that it has searched, so this limits the sum to some tens of megabytes, except for patterns made to take more.
const MOST_SEARCHED: usize = 1 << 20;

/// A pattern of finished schemas, and its text.
#[derive(Clone, Copy)]
pub(crate) struct NamedPattern<'p> {
    pub pattern: &'p Pattern,
    pub text: &'p str,
    ghost named: { pattern.now ≡ text.now },
}

/// The pattern with this text in the `patternProperties` of the place.
pub(crate) fn pattern_of<'a>(schemas: &'a Schemas, place: Place, text: &'a str) -> NamedPattern<'a>
    requires place { is_place schemas.now place ≡ true }
    requires pattern { IsPatternAt schemas.now place text.now }
    ensures { result.text.now ≡ text.now }
{
    NamedPattern {
        pattern: schemas.pattern(place, text).unwrap(),
        text,
    }
}

/// What a search with a pattern of finished schemas takes.
#[derive(Drop)]
pub(crate) struct PatternSearch<'s, 'p> {
    pub alloc: Global,
    pub schemas: &'p Schemas,
    pub searchers: &'s Searchers<'p>,
}

/// Searches with patterns. A searcher is kept for the next search with the same pattern, because making one takes
/// longer than most searches, and so are the answers of recent searches. Which names of a large object the patterns of
/// a schema match is stored while two of its keywords need it.
#[derive(Drop)]
pub(crate) struct Searchers<'p> {
    cache: RefCell<Cache<'p>>,
    /// The stored matches: an entry for each schema being applied that has `additionalProperties` and
    /// `patternProperties`, the innermost last.
    answers: RefCell<Vec<AllAnswers<'p>>>,
}

/// The recent answers, the cached searchers, sorted by the text of their patterns, and the number of bytes searched. If
/// either limit is exceeded, all searchers are dropped.
#[derive(Drop)]
struct Cache<'p> {
    recent: RecentAnswers<'p>,
    all: Vec<Marked<'p>>,
    searched: usize,
}

/// A searcher, and the text of its pattern.
#[derive(Drop)]
struct Marked<'p> {
    text: &'p str,
    searcher: Searcher<'p>,
    ghost searches: { searcher ≡ text.now },
}

impl<'p> Searchers<'p> {
    /// Without cached searchers.
    pub fn new(alloc: Global) -> Searchers<'p> {
        Searchers {
            cache: RefCell::new(Cache {
                recent: RecentAnswers::new(alloc),
                all: Vec::new(alloc),
                searched: 0,
            }),
            answers: RefCell::new(Vec::new(alloc)),
        }
    }

    /// Whether the pattern matches somewhere in a name.
    ///
    /// # Errors
    /// `Memory` if an allocation fails.
    #[inline(never)]
    pub fn matches_name(
        &self,
        alloc: Global,
        named: NamedPattern<'p>,
        name: &'p str,
    ) -> Result<bool, Memory>
        ensures { IfOk result (λ b. b ≡ matches named.entry.text.now name.now) }
    {
        let NamedPattern { pattern, text } = named;
        match self.cache.try_borrow_mut() {
            Ok(mut cache) => answer(alloc, &mut cache, pattern, text, name),
            Err(_) => pattern.holds(alloc, name),
        }
    }
}

impl<'p> Searchers<'p> {
    /// Stores which names the patterns of a schema match.
    ///
    /// # Errors
    /// `Memory` if an allocation fails.
    pub fn keep_answers(&self, answers: AllAnswers<'p>) -> Result<(), Memory> {
        match self.answers.try_borrow_mut() {
            Ok(mut entries) => Ok(entries.push(answers)?),
            Err(_) => Ok(()),
        }
    }

    /// Drops the entry that was stored last.
    pub fn drop_answers(&self) {
        if let Ok(mut entries) = self.answers.try_borrow_mut() {
            let _ = entries.pop();
        }
    }

    /// Whether one of the patterns matches the name, by the entry stored last; None if it doesn't say.
    pub fn any_kept(&self, patterns: &Members, name: &str) -> Option<bool>
        ensures { MatchOption result (Unit {0}) (λ b. b ≡ list_any (λ p. matches p.0 name.now) patterns.now) }
    {
        match self.answers.try_borrow_mut() {
            Ok(mut entries) => entries.last_mut()?.find_any(patterns, name),
            Err(_) => None,
        }
    }

    /// Goes on to the next pattern in the entry stored last.
    pub fn begin_kept(&self) {
        if let Ok(mut entries) = self.answers.try_borrow_mut() {
            if let Some(answers) = entries.last_mut() {
                answers.begin_next();
            }
        }
    }

    /// Whether the pattern matches the name, by the entry stored last; None if it doesn't say.
    pub fn kept_answer(&self, pattern: &str, name: &str) -> Option<bool>
        ensures { MatchOption result (Unit {0}) (λ b. b ≡ matches pattern.now name.now) }
    {
        match self.answers.try_borrow_mut() {
            Ok(mut entries) => entries.last_mut()?.find(pattern, name),
            Err(_) => None,
        }
    }
}

// Whether the pattern matches the name, as remembered or by a search.
fn answer<'p>(
    alloc: Global,
    cache: &mut Cache<'p>,
    pattern: &'p Pattern,
    text: &'p str,
    name: &'p str,
) -> Result<bool, Memory>
    requires { pattern.now ≡ text.now }
    ensures { IfOk result (λ b. b ≡ matches text.now name.now) }
{
    if let Some(found) = cache.recent.recall(text, name) {
        return Ok(found);
    }
    let found = search(alloc, cache, pattern, text, name)?;
    cache.recent.remember(text, name, found);
    Ok(found)
}

// Searches with a cached searcher, or with a new one.
fn search<'p>(
    alloc: Global,
    cache: &mut Cache<'p>,
    pattern: &'p Pattern,
    text: &'p str,
    name: &str,
) -> Result<bool, Memory>
    requires { pattern.now ≡ text.now }
    ensures { IfOk result (λ b. b ≡ matches text.now name.now) }
{
    match search_again(cache, text, name) {
        Some(found) => Ok(found),
        None => search_first(alloc, cache, pattern, text, name),
    }
}

// Counts the bytes of one more search. Above the limit, drops all searchers first.
fn count(cache: &mut Cache<'_>, bytes: usize) {
    if cache.searched > MOST_SEARCHED {
        cache.all.clear();
        cache.searched = 0;
    }
    cache.searched = cache.searched.saturating_add(bytes);
}

// Searches with the cached searcher for the pattern with this text, if there is one.
fn search_again(cache: &mut Cache<'_>, text: &str, name: &str) -> Option<bool>
    ensures { MatchOption result (Unit {0}) (λ b. b ≡ matches text.now name.now) }
{
    count(cache, name.len());
    let index = place_of(cache.all.as_slice(), text);
    let marked = cache.all.get_mut(index)?;
    if marked.text == text {
        return Some(marked.searcher.holds(name));
    }
    None
}

// The index of the searcher for the pattern with this text, or where it belongs.
fn place_of(cache: &[Marked<'_>], text: &str) -> usize {
    cache.partition_point(|marked| marked.text < text)
}

// Searches with a new searcher, and keeps it if there is memory. It isn't inlined: until it is boxed, a searcher takes
// much of the stack, and searches with a cached one shouldn't pay for that.
#[inline(never)]
fn search_first<'p>(
    alloc: Global,
    cache: &mut Cache<'p>,
    pattern: &'p Pattern,
    text: &'p str,
    name: &str,
) -> Result<bool, Memory>
    requires { pattern.now ≡ text.now }
    ensures { IfOk result (λ b. b ≡ matches text.now name.now) }
{
    let mut searcher = pattern.searcher(alloc)?;
    let found = searcher.holds(name);
    keep(cache, Marked { text, searcher });
    Ok(found)
}

// Keeps a searcher, if there is memory. If there are too many, drops the others first.
fn keep<'p>(cache: &mut Cache<'p>, marked: Marked<'p>) {
    if cache.all.len() >= MOST_CACHED {
        cache.all.clear();
    }
    let index = place_of(cache.all.as_slice(), marked.text);
    if index <= cache.all.len() {
        let _ = cache.all.insert(index, marked);
    }
}
