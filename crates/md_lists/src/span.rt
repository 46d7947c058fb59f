//! The ends of a list in place, and its links.
ghost use Rattle.std.specs.Prelude.{◌≡◌, ℕ, ◌+◌, ◌-◌, ◌^◌, ◌<◌, List, [], ◌∷◌, ◌++◌, IfSome, is_some, if◌then◌else◌, vec_len, vec_capacity};
ghost use Rattle.md_lists.specs.Words.{last_or};
ghost use Rattle.md_graph.specs.Linked.{first_or};
ghost use Rattle.md_lists.specs.Spans.{span_of, linked};

// The first and the last item of a list in place, and the number of its items.
#[derive(Clone, Copy)]
pub(crate) struct Span {
    pub(crate) first: Option<u32>,
    pub(crate) last: Option<u32>,
    pub(crate) count: u32,
}

impl Span {
    // No item.
    pub(crate) fn empty() -> Span
        ensures { result ≡ span_of [] }
    {
        Span {
            first: None,
            last: None,
            count: 0,
        }
    }

    // The span with an item more at its end. Condition: the number of the items fits.
    pub(crate) fn with_last(self, item: u32) -> Span
        requires { self.count + 1 < 2 ^ 32 }
        ensures { (xs : List ℕ) → self ≡ span_of xs → result ≡ span_of (xs ++ item ∷ []) }
    {
        Span {
            first: self.first.or(Some(item)),
            last: Some(item),
            count: self.count + 1,
        }
    }

    // The span without the item that stands behind `previous` and before `next`. Condition: it
    // isn't empty.
    pub(crate) fn without(self, previous: Option<u32>, next: Option<u32>) -> Span
        requires { 0 < self.count }
        ensures { (xs ys : List ℕ) (x : ℕ) → self ≡ span_of (xs ++ x ∷ ys) →
            previous ≡ last_or xs None → next ≡ first_or ys None → result ≡ span_of (xs ++ ys) }
    {
        Span {
            first: end_of(previous, self.first, next),
            last: end_of(next, self.last, previous),
            count: self.count - 1,
        }
    }

    // The span with another item in the place of the one that stands behind `previous` and before
    // `next`.
    pub(crate) fn with_other(self, previous: Option<u32>, next: Option<u32>, item: u32) -> Span
        ensures { (xs ys : List ℕ) (x : ℕ) → self ≡ span_of (xs ++ x ∷ ys) →
            previous ≡ last_or xs None → next ≡ first_or ys None →
            result ≡ span_of (xs ++ item ∷ ys) }
    {
        Span {
            first: end_of(previous, self.first, Some(item)),
            last: end_of(next, self.last, Some(item)),
            count: self.count,
        }
    }
}

// An end of a span: the one it had where an item stands beside the place that changes, else
// another.
fn end_of(beside: Option<u32>, had: Option<u32>, other: Option<u32>) -> Option<u32>
    ensures { result ≡ (if is_some beside then had else other) }
{
    if beside.is_some() { had } else { other }
}

// Writes a link at a place, if there is one. Condition: it has a link.
pub(crate) fn link(links: &mut Vec<Option<u32>>, place: Option<u32>, to: Option<u32>)
    requires { IfSome place (λ p. p < vec_len links.old) }
    ensures items { links.new.items ≡ linked links.old.items place to }
    ensures len { vec_len links.new ≡ vec_len links.old }
    ensures capacity { vec_capacity links.new ≡ vec_capacity links.old }
{
    if let Some(place) = place {
        links[place as usize] = to;
    }
}
