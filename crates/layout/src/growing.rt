// Where an element may stand behind the others.
ghost use Rattle.std.specs.Prelude.{◌≡◌, List, ◌≤◌, ◌<◌};
ghost use Rattle.meaning.specs.declared.Element.{Element};
ghost use Rattle.meaning.specs.Reading.{may_hold, well_placed};
ghost use Rattle.layout.specs.Nearest.{grown, Stands};

use crate::Tree;
use meaning::Kind;

// Whether an element of one kind may hold one of another.
fn may_hold(parent: Kind, kind: Kind) -> bool
    ensures { result ≡ may_hold parent kind }
{
    match parent {
        Kind::Set => kind != Kind::Rule,
        Kind::Policy => kind == Kind::Rule,
        Kind::Rule => false,
    }
}

// Whether an element of this kind and depth may stand behind the others.
pub fn well_placed(kind: Kind, depth: usize, tree: Tree) -> bool
    requires { (tree.depth ≤ 7) × ((before : List Element) × Stands tree before) }
    ensures { (before : List Element) → Stands tree before → result ≡ well_placed kind depth before }
{
    if tree.len == 0 {
        if depth != 0 {
            return false;
        }
        return kind != Kind::Rule;
    }
    if depth == 0 {
        return false;
    }
    if 7 < depth {
        return false;
    }
    if tree.depth + 1 < depth {
        return false;
    }
    match tree.kinds[depth - 1] {
        Some(parent) => may_hold(parent, kind),
        None => false,
    }
}

// The tree with one element more.
pub fn with_element(tree: Tree, kind: Kind, depth: usize) -> Tree
    requires { (depth ≤ 7) × (tree.len < 64) }
    ensures { result ≡ grown tree kind depth }
{
    let mut kinds = tree.kinds;
    kinds[depth] = Some(kind);
    Tree {
        len: tree.len + 1,
        depth,
        kinds,
    }
}
