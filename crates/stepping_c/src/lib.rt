// The step to the next request as a C function, by the function of `stepping`.
#![tactic(auto)]

ghost use Rattle.std.specs.Prelude.{◌≡◌, take};
ghost use Rattle.meaning.specs.Deciding.{next_request};
ghost use Rattle.requests.specs.Values.{values_of, revalued, Fitting};

use requests::Request;
use stepping::Counts;

// The next request in number order, the first one behind the last.
#[unsafe(no_mangle)]
pub extern "C" fn next_request(q: Request, counts: Counts) -> Request
    requires { Fitting counts.counts q }
    ensures { result ≡ revalued q (next_request (take q.len counts.counts) (values_of q)) }
{
    stepping::next_request(q, counts)
}
