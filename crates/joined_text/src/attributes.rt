// The attribute lines of the joined file, and the line of its set.
ghost use Rattle.std.specs.Prelude.{not, [], ◌∷◌, ◌++◌, ◌+◌, ◌*◌, ◌≤◌, ◌<◌, length, replicate};
ghost use Rattle.meaning.specs.Text.{bytes, keep, gathered, tab, line};
ghost use Rattle.meaning.specs.Model.{letter_text, attribute_fields};
ghost use Rattle.meaning.specs.Joining.{declared};
ghost use Rattle.layout.specs.Places.{attribute_at, attributes_of, Standing};
ghost use Rattle.printing.specs.Puts.{Puts};
ghost use Rattle.joined_text.specs.Lines.{Headed};

use joined_attributes::Part;
use printing::Sink;

// The letter of an attribute line, and its tab.
fn put_letter(several: bool, sink: &mut Sink)
    requires { sink.old.at ≤ 1000000 }
    ensures { Puts sink.old (letter_text several ++ (tab ∷ [])) sink.new × (sink.new.at ≤ sink.old.at + 2) }
{
    let letter: &[u8] = if several { b"M" } else { b"A" };
    sink.put_field(letter, b'\t');
}

// The line of attribute i.
fn put_attribute(part: &Part, i: usize, sink: &mut Sink)
    requires { let p = part.now in (i < 6) × Standing p.file.now p.attributes i × (length p.file.now ≤ 16384) × (sink.old.at ≤ 900000) }
    ensures { Puts sink.old (line (attribute_fields (attribute_at part.now.file.now part.now.attributes i))) sink.new × (sink.new.at ≤ sink.old.at + 16388) }
{
    let a = &part.attributes;
    put_letter(a.all[i].several, sink);
    sink.put_field(a.name(part.file, i), b'\t');
    sink.put_field(a.values(part.file, i), b'\n');
}

// The attribute lines of the first file.
pub(crate) fn put_attributes(part: &Part, sink: &mut Sink)
    requires { Headed part.now.file.now part.now.attributes × (sink.old.at ≤ 1000) }
    ensures { Puts sink.old (gathered (λ c. line (attribute_fields c)) (attributes_of part.now.file.now part.now.attributes)) sink.new × (sink.new.at ≤ sink.old.at + 98328) }
{
    for i in 0..part.attributes.len {
        put_attribute(part, i, sink);
    }
}

// Those of the second file's attributes whose names the first lacks.
pub(crate) fn put_alone(first: &Part, second: &Part, sink: &mut Sink)
    requires { Headed first.now.file.now first.now.attributes × Headed second.now.file.now second.now.attributes × (sink.old.at ≤ 100000) }
    ensures { Puts sink.old (gathered (λ c. line (attribute_fields c)) (keep (λ c. not (declared (attributes_of first.now.file.now first.now.attributes) c.name)) (attributes_of second.now.file.now second.now.attributes))) sink.new × (sink.new.at ≤ sink.old.at + 98328) }
{
    let b = &second.attributes;
    for j in 0..b.len {
        if layout::known_attribute(first.file, &first.attributes, b.name(second.file, j)) {
            continue;
        }
        put_attribute(second, j, sink);
    }
}

// The targets of the set.
fn put_stars(n: usize, sink: &mut Sink)
    requires { (n ≤ 12) × (sink.old.at ≤ 900000) }
    ensures { Puts sink.old (gathered (λ t. tab ∷ t) (replicate n (bytes "*"))) sink.new × (sink.new.at ≤ sink.old.at + 2 * n) }
{
    for _i in 0..n {
        sink.put_bytes(b"\t*");
    }
}

// The line of the set over both, with `*` at each of n attributes.
pub(crate) fn put_set(word: &[u8], n: usize, sink: &mut Sink)
    requires { (length word.now ≤ 32) × (n ≤ 12) × (sink.old.at ≤ 800000) }
    ensures { Puts sink.old (line (bytes "S" ∷ bytes "0" ∷ bytes "joined" ∷ word.now ∷ replicate n (bytes "*"))) sink.new × (sink.new.at ≤ sink.old.at + 100) }
{
    sink.put_bytes(b"S\t0\tjoined\t");
    sink.put_bytes(word);
    put_stars(n, sink);
    sink.put(b'\n');
}
