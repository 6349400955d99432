// The step to the next request as a C function of its own: to be held to plain C, timed, and looked at as machine code.
#![tactic(auto)]

ghost use Rattle.std.specs.Prelude.{◌≡◌, take};
ghost use Rattle.meaning.specs.Deciding.{next_request};
ghost use Rattle.requests.specs.Values.{values_of, revalued, Fitting};

use requests::Request;

// How many numbers each attribute has.
#[repr(C)]
#[derive(Clone, Copy)]
pub struct Counts {
    pub counts: [usize; 6],
}

// The next request in number order, the first one behind the last.
pub fn next_request(q: Request, counts: Counts) -> Request
    requires { Fitting counts.counts q }
    ensures { result ≡ revalued q (next_request (take q.len counts.counts) (values_of q)) }
{
    let counts = counts.counts;
    q.next(counts)
}
