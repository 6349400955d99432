// Writes a policy file: attribute lines as bytes, and a list of elements.
#![tactic(auto)]

ghost use Rattle.std.specs.Prelude.{◌≡◌, ◌++◌, length};
ghost use Rattle.meaning.specs.Text.{gathered};
ghost use Rattle.meaning.specs.Model.{◌then◌};
ghost use Rattle.meaning.specs.Reading.{short};
ghost use Rattle.meaning.specs.Report.{fitted};
ghost use Rattle.meaning.specs.Writing.{element_lines};
ghost use Rattle.meaning.specs.Claims.Texts.{All};
ghost use Rattle.meaning.specs.Claims.Writing.{Shaped};
ghost use Rattle.meaning.specs.Operations.{answered, lent, write_answer, write_lent};
ghost use Rattle.layout.specs.Places.{attributes_of};
ghost use Rattle.treelines.specs.Writable.{Writable};

use checking::ValueCounts;
use meaning::{Answer, Element};
use printing::Sink;
use refusals::{Refusal, Refused};
use treelines::AttributeLines;

// The text of good lines and elements: counted first, and written if it is no longer than a file and fits.
fn write_text(lines: &AttributeLines, list: &[Element], out: &mut [u8]) -> Answer
    requires { Writable list.now }
    ensures value { result ≡ answered length (short (lines.now.text.now ++ gathered (element_lines (attributes_of lines.now.text.now lines.now.attributes)) list.now) then fitted (length out.old)) }
    ensures out_after { out.new ≡ lent out.old (short (lines.now.text.now ++ gathered (element_lines (attributes_of lines.now.text.now lines.now.attributes)) list.now) then fitted (length out.old)) }
{
    let mut none = [0u8; 0];
    let mut count = Sink {
        out: &mut none,
        at: 0,
    };
    treelines::put_file(lines, list, &mut count);
    let needed = count.at;
    if 16384 < needed {
        return Refused {
            why: Refusal::LongFile,
            second: 0,
        }
        .into();
    }
    let room = out.len();
    if needed <= room {
        treelines::put_file(lines, list, &mut Sink { out, at: 0 });
    }
    printing::text_answer(needed, room)
}

// The file of some attribute lines and a list of elements, in a lent buffer. The last clause is what the elements' type says: 16 name bytes, six masks and 16 name bytes in each place.
pub fn write(header: &[u8], list: &[Element], out: &mut [u8]) -> Answer
    ensures value { result ≡ write_answer header.now list.now out.old }
    ensures out_after { out.new ≡ write_lent header.now list.now out.old }
    ensures shaped { result.number ≡ 0 → All Shaped list.now }
{
    let a = match header::read_header(header) {
        Ok(attributes) => attributes,
        Err(refused) => return refused.into(),
    };
    let values = ValueCounts {
        counts: a.counts(),
        len: a.len,
    };
    if let Err(refused) = checking::check_elements(&values, list) {
        return refused.into();
    }
    if list.is_empty() {
        return Refused {
            why: Refusal::NoElement,
            second: 0,
        }
        .into();
    }
    let lines = AttributeLines {
        text: header,
        attributes: a,
    };
    write_text(&lines, list, out)
}
