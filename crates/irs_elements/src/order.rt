//! The order in which broken rules are reported, which is our rule. The lower stream comes first,
//! then the lower rule, then the earlier element, then the lower index.
ghost use Rattle.std.specs.Prelude.{◌≡◌};
ghost use Rattle.irs_terms.specs.Faults.{earlier_broken as earlier_of, is_before, is_before_in};

use irs_terms::Broken;

/// Whether `f` is reported before `g`.
pub fn comes_before(f: &Broken, g: &Broken) -> bool
    ensures { result ≡ is_before f.now g.now }
{
    f.place.stream < g.place.stream || (f.place.stream == g.place.stream && comes_before_in(f, g))
}

// The order within a stream.
fn comes_before_in(f: &Broken, g: &Broken) -> bool
    ensures { result ≡ is_before_in f.now g.now }
{
    let (first, second) = (f.rule.number(), g.rule.number());
    let (here, there) = (f.place.elem.place(), g.place.elem.place());
    first < second
        || (first == second && (here < there || (here == there && f.place.index < g.place.index)))
}

/// The earlier of two answers.
pub fn earlier(a: Option<Broken>, b: Option<Broken>) -> Option<Broken>
    ensures { result ≡ earlier_of a b }
{
    match (a, b) {
        (None, b) => b,
        (a, None) => a,
        (Some(f), Some(g)) => Some(if comes_before(&g, &f) { g } else { f }),
    }
}
