// Places for elements, lent to the operations on a lent list.
ghost use Rattle.std.specs.Prelude.{◌≡◌, replicate};
ghost use Rattle.meaning.specs.Operations.{read_lent};
ghost use Rattle.elements.specs.Listed.{blank};

use elements::Elements;
use meaning::Element;

// Places that hold no element. The writer looks at 65, so there may be one more.
pub(crate) fn blanks() -> [Element; 66]
    ensures { result ≡ replicate 66 blank }
{
    let none = Elements::none();
    let all = none.all;
    let blank = all[0];
    [blank; 66]
}

// The places after a file was read into them, lent to `lists::read_list`.
pub(crate) fn listed(file: &[u8]) -> [Element; 66]
    ensures { result ≡ read_lent file.now (replicate 66 blank) }
{
    let mut list = blanks();
    lists::read_list(file, &mut list);
    list
}
