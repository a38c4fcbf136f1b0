// Walks, equality and the window, on a pool that is known to hold a bag; both are lent, as in `calls`.
#![tactic(auto)]

ghost use Rattle.std.specs.Prelude.{◌≡◌};
ghost use Rattle.model.specs.Calls.{whether, skip_call, equal_call};
ghost use Rattle.calls.specs.Does.{Ready};
ghost use Rattle.views.specs.Part.{part_call};

use calls::len;
use model::{Refusal, Walked};
use pool::ELEMS;
use tree::Known;

// Some words of the pool, as C has them: the first one's place, and how many. 01: a refusal is an empty part, and nothing else is.
#[repr(C)]
#[derive(Clone, Copy)]
pub struct Span {
    pub start: usize,
    pub count: usize,
}

// Where in the pool the element at an index stands, with those after it in the same leaf; nowhere if there is none.
pub fn part(pool: &[u64], known: Known, index: u64) -> Span
    requires { Ready pool.now known }
    ensures { (s : Ready pool.now known) → result ≡ part_call index s.bag }
{
    if len(pool, known) <= index {
        return Span { start: 0, count: 0 };
    }
    let s = tree::stretch(pool, known.root, known.levels, index as usize);
    let a = pool::start_of(s.node);
    Span {
        start: a + ELEMS + s.slot,
        count: s.count,
    }
}

// The element m places after a position, and the place after it. No sum is made before it is known to fit. A walk is C's struct.
pub fn skip(pool: &[u64], known: Known, position: u64, m: u64) -> Walked
    requires { Ready pool.now known }
    ensures { (s : Ready pool.now known) → result ≡ skip_call position m s.bag }
{
    let n = len(pool, known);
    if n.saturating_sub(position) <= m {
        return Walked {
            number: Refusal::PastTheEnd.into(),
            element: 0,
            position: n,
        };
    }
    let i = position + m;
    let f = tree::look_up(pool, known.root, known.levels, i as usize);
    Walked {
        number: 0,
        element: f.element,
        position: i + 1,
    }
}

// Whether two lists have the same elements in the same order. A list is no value here: both are read by lookups.
pub fn equal(a: &[u64], in_a: Known, b: &[u64], in_b: Known) -> bool
    requires { Ready a.now in_a × Ready b.now in_b }
    ensures { (s : Ready a.now in_a) (t : Ready b.now in_b) → whether result ≡ equal_call s.bag t.bag }
{
    let n = len(a, in_a);
    if n != len(b, in_b) {
        return false;
    }
    for i in 0..n {
        let x = tree::look_up(a, in_a.root, in_a.levels, i as usize);
        let y = tree::look_up(b, in_b.root, in_b.levels, i as usize);
        if x.element != y.element {
            return false;
        }
    }
    true
}
