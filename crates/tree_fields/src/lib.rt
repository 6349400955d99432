// A tree line: where the fields before its targets end, found once; those fields; and the masks of its targets.
#![tactic(auto)]

ghost use Rattle.std.specs.Prelude.{◌≡◌, [], ◌+◌, ◌≤◌, length, drop, get_or};
ghost use Rattle.meaning.specs.Text.{cut, tab};
ghost use Rattle.tree_fields.specs.Headed.{ends_of, Headed};
ghost use Rattle.layout.specs.Places.{attributes_of, AllStanding, FewValues};
ghost use Rattle.tree_fields.specs.Masks.{masks_in};

use layout::Attributes;

// Where the letter, the depth, the name and the word end.
#[derive(Clone, Copy)]
pub struct FieldEnds {
    pub letter: usize,
    pub depth: usize,
    pub name: usize,
    pub word: usize,
}

// A line of four fields or more, and where the first four end.
#[derive(Clone, Copy)]
pub struct HeadedLine<'a> {
    pub text: &'a [u8],
    pub ends: FieldEnds,
    pub ghost headed: { Headed text.now ends },
}

impl<'a> HeadedLine<'a> {
    pub fn of(line: &'a [u8]) -> HeadedLine<'a>
        requires { 4 ≤ length (cut tab line.now) }
        ensures text { result.text.now ≡ line.now }
        ensures ends { result.ends ≡ ends_of line.now }
    {
        let letter = text::end_of(line, 0, b'\t');
        let depth = text::end_of(line, letter + 1, b'\t');
        let name = text::end_of(line, depth + 1, b'\t');
        let word = text::end_of(line, name + 1, b'\t');
        let ends = FieldEnds {
            letter,
            depth,
            name,
            word,
        };
        HeadedLine { text: line, ends }
    }

    pub fn letter(&self) -> &'a [u8]
        ensures { result.now ≡ get_or (cut tab self.now.text.now) 0 [] }
    {
        &self.text[..self.ends.letter]
    }

    pub fn depth(&self) -> &'a [u8]
        ensures { result.now ≡ get_or (cut tab self.now.text.now) 1 [] }
    {
        &self.text[self.ends.letter + 1..self.ends.depth]
    }

    pub fn name(&self) -> &'a [u8]
        ensures { result.now ≡ get_or (cut tab self.now.text.now) 2 [] }
    {
        &self.text[self.ends.depth + 1..self.ends.name]
    }

    pub fn word(&self) -> &'a [u8]
        ensures { result.now ≡ get_or (cut tab self.now.text.now) 3 [] }
    {
        &self.text[self.ends.name + 1..self.ends.word]
    }

    // The fields behind the word.
    pub fn targets(&self) -> &'a [u8]
        requires { 5 ≤ length (cut tab self.now.text.now) }
        ensures fields { cut tab result.now ≡ drop 4 (cut tab self.now.text.now) }
        ensures short { length result.now ≤ length self.now.text.now }
    {
        &self.text[self.ends.word + 1..]
    }

    // The masks of the targets, one for each attribute, where all of them are good.
    pub fn masks(&self, file: &[u8], a: &Attributes) -> Option<[u16; 6]>
        requires { AllStanding file.now a.now × FewValues a.now × (1 ≤ a.now.len) × (length (cut tab self.now.text.now) ≡ 4 + a.now.len) }
        ensures { result ≡ masks_in (attributes_of file.now a.now) (drop 4 (cut tab self.now.text.now)) }
    {
        let targets = self.targets();
        let mut masks = [0u16; 6];
        let mut at = 0;
        for i in 0..a.len {
            let end = text::end_of(targets, at, b'\t');
            masks[i] = syntax::target_mask(a.values(file, i), a.all[i].count, &targets[at..end])?;
            at = end + 1;
        }
        Some(masks)
    }
}
