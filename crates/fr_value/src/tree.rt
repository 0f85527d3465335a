//! Trees of items.

ghost use Rattle.std.specs.Prelude.{◌≡◌, ◌<◌, ◌∷◌, ◌++◌, length, IfOk};
ghost use Rattle.fr_value.specs.Data.{data_of, datum_of, AreFew, IsMeasured, tree_data, kids_data, IsRun};

use crate::slices::{measure_few, run_of};
use crate::value::Value;
use std::alloc::{AllocError, Global};
use std::marker::Model;
use std::rc::Rc;

/// An item, then those of a vector, then those of two trees. Contracts see the item and the list of the others.
#[cycle(value)]
#[derive(Drop)]
pub(crate) struct Tree {
    pub(crate) item: Value,
    pub(crate) chunk: Vec<Value>,
    pub(crate) kids: Kids,
    len: u32,
    size: u32,
    depth: u32,
}

#[cycle(value)]
#[derive(Drop)]
pub(crate) enum Kids {
    Zero,
    Two(Rc<Tree>, Rc<Tree>),
}

impl Model for Tree {
    ghost use Rattle.std.specs.Prelude.{List as PlainList, ◌+◌, ◌*◌, ◌∷◌, ◌++◌};
    ghost use Rattle.std.specs.Coded.{coded_list, coded×};
    ghost use Rattle.fr_value.specs.declared.value.Datum.{Datum};
    ghost use Rattle.fr_value.specs.contracts.value.Datum as d;

    ghost Value = { Datum × PlainList Datum };

    ghost coded = { coded× d.the_row.coded (coded_list d.the_row.coded) };

    ghost use Rattle.fr_value.specs.Data.{datum_of, data_of, kids_data, data_size, IsMeasured};

    ghost view = { λ a. (datum_of a.item, data_of a.chunk.items ++ kids_data a.kids) };

    ghost invariant = { λ a. IsMeasured a.len a.size a.depth (datum_of a.item ∷ (data_of a.chunk.items ++ kids_data a.kids)) };

    ghost size = { λ t. 2 * data_size (t.0 ∷ t.1) };

    ghost use Rattle.fr_value.specs.DataFalls.{chunk_falls};
    ghost use Rattle.std.proofs.Common.{arith};

    ghost size_decreases = { λ a h. omega (arith, chunk_falls a.item a.chunk.items a.kids) };
}

impl Tree {
    /// The number of items.
    pub(crate) fn len(&self) -> u32
        ensures { result ≡ length (tree_data self.now) }
    {
        self.len
    }

    /// The number of items, and the size and depth of a list of them.
    pub(crate) fn measure(&self) -> (u32, u32, u32)
        ensures { IsMeasured result.0 result.1 result.2 (tree_data self.now) }
    {
        (self.len, self.size, self.depth)
    }

    /// The item at an index, and items right behind it.
    pub(crate) fn run(&self, at: usize) -> (&Value, &[Value])
        requires { at < length (tree_data self.now) }
        ensures { IsRun (tree_data self.now) at result.0.now result.1.now }
    {
        if at == 0 {
            return (&self.item, &self.chunk);
        }
        let at = at - 1;
        let near = self.chunk.len();
        if at < near {
            return run_of(&self.chunk, at);
        }
        match &self.kids {
            Kids::Zero => unreachable!(),
            Kids::Two(a, b) => {
                let len = a.len() as usize;
                if at - near < len {
                    a.run(at - near)
                } else {
                    b.run(at - near - len)
                }
            }
        }
    }
}

/// The number of items, and the size and depth of a list of them.
fn kids_measure(kids: &Kids) -> (u32, u32, u32)
    requires { AreFew (kids_data kids.now) }
    ensures { IsMeasured result.0 result.1 result.2 (kids_data kids.now) }
{
    match kids {
        Kids::Zero => (0, 1, 1),
        Kids::Two(a, b) => {
            let (len, size, depth) = a.measure();
            let (more, other, deep) = b.measure();
            (len + more, size + (other - 1), depth.max(deep))
        }
    }
}

/// The tree of an item, then the items of a vector, then those of two trees.
pub(crate) fn tree_of(
    alloc: Global,
    item: Value,
    chunk: Vec<Value>,
    kids: Kids,
) -> Result<Rc<Tree>, AllocError>
    requires { AreFew (datum_of item ∷ (data_of chunk.items ++ kids_data kids)) }
    ensures { IfOk result (λ t. t.value ≡ (datum_of item, data_of chunk.items ++ kids_data kids)) }
{
    let (len, size, depth) = measure_few(&chunk);
    let (others, other, deep) = kids_measure(&kids);
    let len = len + others + 1;
    let size = size + (other - 1) + item.size() as u32;
    let depth = depth.max(deep).max(item.depth() + 1);
    Ok(Rc::new(
        alloc,
        Tree {
            item,
            chunk,
            kids,
            len,
            size,
            depth,
        },
    )?)
}
