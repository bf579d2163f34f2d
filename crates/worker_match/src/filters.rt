//! A link's filter.
ghost use Rattle.std.specs.Prelude.{◌≡◌, IfOk, IfSome, IsNone, Some, false, is_none, option_map};
ghost use Rattle.std.specs.Arc.{arc_value};
ghost use Rattle.worker_match.specs.Walk.{has_naming, is_naming, terms_of};

use aprs_base::Memory;
use filter_lang::{FilterSet, Term, What};
use std::marker::Model;
use std::sync::Arc;

/// A link's filter, where it has one.
#[derive(Drop)]
pub struct LinkFilter {
    set: Option<Arc<FilterSet>>,
    /// Whether one of its terms asks for a call's position. Most filters don't, and needn't be told of any.
    named: bool,
}

impl Model for LinkFilter {
    ghost use Rattle.std.specs.Prelude.{◌≡◌, List, Option, option_map};
    ghost use Rattle.std.specs.Arc.{arc_value};
    ghost use Rattle.filter_lang.specs.Terms.{TermSeen};
    ghost use Rattle.worker_match.specs.Walk.{has_naming, terms_of};

    ghost Value = { Option (List TermSeen) };

    ghost view = { λ f. option_map arc_value f.set };

    ghost invariant = { λ f. f.named ≡ has_naming (terms_of (option_map arc_value f.set)) };
}

/// Whether the term asks for the position of a call.
fn is_naming(what: &What) -> bool
    ensures { result ≡ is_naming what.now }
{
    matches!(what, What::Friend { .. } | What::ClassNear { .. })
}

/// Whether one of the terms does.
fn has_naming(terms: &[Term]) -> bool
    ensures { result ≡ has_naming terms.now }
{
    terms.iter().any(|term| is_naming(&term.what))
}

fn set_has_naming(set: &Option<Arc<FilterSet>>) -> bool
    ensures { result ≡ has_naming (terms_of (option_map arc_value set.now)) }
{
    match set {
        Some(set) => has_naming(set.terms.as_slice()),
        None => false,
    }
}

impl LinkFilter {
    pub fn new(set: Option<Arc<FilterSet>>) -> LinkFilter
        ensures { result ≡ option_map arc_value set }
    {
        let named = set_has_naming(&set);
        LinkFilter { set, named }
    }

    /// The filter of that set, which is shared once more.
    pub(crate) fn shared(set: &Option<Arc<FilterSet>>) -> Result<LinkFilter, Memory>
        ensures { IfOk result (λ filter. filter ≡ option_map arc_value set.now) }
    {
        match set {
            Some(set) => Ok(LinkFilter::new(Some(set.clone()?))),
            None => Ok(LinkFilter::new(None)),
        }
    }

    /// Whether the link has none.
    pub(crate) fn is_none(&self) -> bool
        ensures { result ≡ is_none self.now }
    {
        self.set.is_none()
    }

    pub(crate) fn get(&self) -> &Option<Arc<FilterSet>>
        ensures { option_map arc_value result.now ≡ self.now }
    {
        &self.set
    }

    /// Its terms, where one of them asks for a call's position.
    pub(crate) fn naming(&self) -> Option<&[Term]>
        ensures some { IfSome result (λ terms. terms.now ≡ terms_of self.now) }
        ensures none { IsNone result → has_naming (terms_of self.now) ≡ false }
    {
        if !self.named {
            return None;
        }
        match &self.set {
            Some(set) => Some(set.terms.as_slice()),
            None => None,
        }
    }
}
