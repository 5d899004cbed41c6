//! What threads may share. Each law is the contract of a function that does nothing.
ghost use Rattle.std.specs.Thread.{IsSend, IsSync};
ghost use Rattle.js_assert.specs.contracts.pattern.Pattern as Patterns;
ghost use Rattle.js_assert.specs.contracts.assertion.Assertion as Assertions;

use crate::choices::Choices;
use crate::instance_type::InstanceType;
use crate::objects::Dependence;
use js_doc::{Doc, Text, Whole};
use regex_dfa::Dfa;
use regex_hir::Hir;
use regex_literal::{ByteSet, Caseless};
use regex_meta::Plans;
use regex_syntax::Config;
use std::num::NonZeroU64;

/// A pattern may be sent to another thread, and shared by several.
pub fn patterns_cross()
    ensures send { IsSend Patterns.the_row }
    ensures sync { IsSync Patterns.the_row }
{
    crosses::<String>();
    crosses::<Config>();
    crosses::<Vec<Option<String>>>();
    crosses::<Hir>();
    crosses::<Dfa>();
    crosses::<Plans>();
    crosses::<Caseless>();
    crosses::<Vec<Vec<u32>>>();
    crosses::<Option<ByteSet>>();
    crosses::<Option<usize>>();
}

/// Assertions may be sent to another thread and shared by several.
pub fn assertions_cross()
    ensures send { IsSend Assertions.the_row }
    ensures sync { IsSync Assertions.the_row }
{
    patterns_cross();
    crosses::<InstanceType>();
    crosses::<Choices>();
    crosses::<Doc>();
    crosses::<NonZeroU64>();
    crosses::<Whole>();
    crosses::<Text>();
    crosses::<Dependence>();
}

// What is asked, as a fact.
fn crosses<T: Send + Sync>()
    ensures send { IsSend T.row }
    ensures sync { IsSync T.row }
{}
