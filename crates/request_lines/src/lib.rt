// A request line, read against the attributes of a file.
#![tactic(auto)]

ghost use Rattle.std.specs.Prelude.{◌≡◌, cond, ◌≤◌, length};
ghost use Rattle.meaning.specs.Text.{cut, tab};
ghost use Rattle.meaning.specs.Deciding.{value_of, set_of, values_of, request_line};
ghost use Rattle.laws.specs.Found.{found};
ghost use Rattle.layout.specs.Places.{attributes_of, AllStanding, FewValues};
ghost use Rattle.request_lines.specs.Asked.{AskedAs};

use layout::Attributes;
use refusals::{Refusal, Refused};
use requests::Request;

// What a field has of an attribute: the number of a value, or where it may have several, of a set of them.
fn choose(several: bool, values: &[u8], field: &[u8]) -> Option<usize>
    requires { length (cut tab values.now) ≤ 16 }
    ensures { result ≡ found (cond several (set_of (cut tab values.now) field.now) (value_of 0 field.now (cut tab values.now))) }
{
    if several {
        let mask = syntax::names_mask(values, field, false)?;
        return Some((mask - 1) as usize);
    }
    names::find(values, field)
}

// The request of a line that has a field for each attribute, or the place of the first field that is no value and no set.
fn read_fields(file: &[u8], a: &Attributes, line: &[u8]) -> Result<Request, Refused>
    requires { AllStanding file.now a.now × FewValues a.now × (length (cut tab line.now) ≡ a.now.len) }
    ensures { AskedAs a.now result (values_of 1 (attributes_of file.now a.now) (cut tab line.now)) }
{
    let mut values = [0usize; 6];
    let mut at = 0;
    for i in 0..a.len {
        let end = text::end_of(line, at, b'\t');
        let Some(v) = choose(a.all[i].several, a.values(file, i), &line[at..end]) else {
            return Err(Refused {
                why: Refusal::BadRequest,
                second: (i + 1) as u32,
            });
        };
        values[i] = v;
        at = end + 1;
    }
    Ok(Request {
        several: a.severals(),
        values,
        len: a.len,
    })
}

// What a request line asks of a file with these attributes; or the place of the field that refuses it, 0 for a wrong count
// of fields. The fields are counted first.
pub fn request_line(file: &[u8], a: &Attributes, line: &[u8]) -> Result<Request, Refused>
    requires { AllStanding file.now a.now × FewValues a.now }
    ensures { AskedAs a.now result (request_line (attributes_of file.now a.now) line.now) }
{
    if text::count_pieces(line, b'\t') != a.len {
        return Err(Refused {
            why: Refusal::BadRequest,
            second: 0,
        });
    }
    read_fields(file, a, line)
}
