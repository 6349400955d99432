// Requests by value: one number for each attribute. The numbering of requests, and the test of a target.
#![tactic(auto)]

ghost use Rattle.std.specs.Prelude.{◌≡◌, ◌+◌, ◌≤◌, ◌<◌, length, take};
ghost use Rattle.meaning.specs.Model.{product};
ghost use Rattle.meaning.specs.Deciding.{number_of, request_of, next_request, bit, in_field, within};
ghost use Rattle.requests.specs.Values.{values_of, severals_of, request_with, revalued, Fitting};

// The numbers of `len` attributes, each that of a value or, where `several` says so, that of a set of values; the places
// behind them don't matter. It lies as in C, for `stepping`. Methods take it and its array by value, the form that
// docs/DECISIONS.md names.
#[repr(C)]
#[derive(Clone, Copy)]
pub struct Request {
    pub several: [bool; 6],
    pub values: [usize; 6],
    pub len: usize,
}

// Whether value v is in the mask: no value from 16 on is. (Other crates test a bit so too: one expression, each at its width and range.)
fn holds(mask: u16, v: usize) -> bool
    ensures { result ≡ bit mask v }
{
    if v < 16 { (mask >> v) % 2 == 1 } else { false }
}

// Whether number v of an attribute matches a target's field: the value is in it; or the set, whose mask is v + 1 and has
// at most 12 values, shares one with it.
fn in_field(several: bool, mask: u16, v: usize) -> bool
    ensures { result ≡ in_field several mask v }
{
    if several {
        let set = ((v % 4096 + 1) % 4096) as u16;
        return (mask & set) != 0;
    }
    holds(mask, v)
}

impl Request {
    // The request's number: the first attribute weighs most.
    pub fn number(self, counts: [usize; 6]) -> usize
        requires { Fitting counts self }
        ensures { result ≡ number_of (take self.len counts) (values_of self) }
    {
        let values = self.values;
        let len = self.len;
        let mut total: usize = 0;
        for i in 0..len {
            total = total * counts[i] + values[i];
        }
        total
    }

    // The next request in number order, the first one behind the last, by quotient and remainder over the counts.
    pub fn next(self, counts: [usize; 6]) -> Request
        requires { Fitting counts self }
        ensures { (result ≡ revalued self (next_request (take self.len counts) (values_of self))) × Fitting counts result }
    {
        let several = self.several;
        let mut values = self.values;
        let len = self.len;
        let mut carry: u32 = 1;
        for i in (0..len).rev() {
            // of 32 bits, and one above the last number: so the compiler adds no test of how large the numbers are, and
            // none of whether it divides by 0
            let last = (counts[i] - 1) as u32;
            let count = last + 1;
            let sum = values[i] as u32 + carry;
            values[i] = (sum % count) as usize;
            carry = sum / count;
        }
        Request {
            several,
            values,
            len,
        }
    }

    // Whether each value, or set of values, matches the field of its attribute.
    pub fn matches(self, masks: &[u16]) -> bool
        requires { (self.len ≤ length masks.now) × (self.len ≤ 6) }
        ensures { result ≡ within (severals_of self) masks.now (values_of self) }
    {
        let several = self.several;
        let values = self.values;
        let len = self.len;
        for i in 0..len {
            if !in_field(several[i], masks[i], values[i]) {
                return false;
            }
        }
        true
    }
}

// The request that has the number.
pub fn request_of(number: usize, several: [bool; 6], counts: [usize; 6], len: usize) -> Request
    requires { (len ≤ 6) × (number < product (take len counts)) × (product (take len counts) ≤ 4096) }
    ensures { (result ≡ request_with several (request_of (take len counts) number)) × Fitting counts result }
{
    let mut values = [0usize; 6];
    let mut rest = number;
    for i in (0..len).rev() {
        values[i] = rest % counts[i];
        rest /= counts[i];
    }
    Request {
        several,
        values,
        len,
    }
}
