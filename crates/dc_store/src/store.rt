//! `Store`, the cells of a running program.

ghost use Rattle.std.specs.Prelude.{◌≡◌, ◌≤◌, map, is_some, IfOk, IsTrue};
ghost use Rattle.dc_int.specs.Shapes.{state_fits};
ghost use Rattle.dc_int.specs.Store.{cell_of, value_at, put_at};
ghost use Rattle.dc_store.specs.Rows.{store_of};
ghost use Rattle.dc_store.specs.Shaped.{IsFitting, elements_together, undefined_store};
ghost use Rattle.dc_store.specs.Shaped.{undefined_variable};

use dc_int::{ElementId, Shape};
use dc_text::NoMemory;
use std::alloc::Global;
use std::marker::Model;

/// The variables of a running program, each with a cell for each element. It is seen as a store with the
/// shapes of its variables.
#[derive(Drop)]
pub struct Store {
    shapes: Vec<Shape>,
    rows: Vec<Vec<Option<i64>>>,
}

impl Model for Store {
    ghost use Rattle.dc_store.specs.Rows.{shaped_of};
    ghost use Rattle.dc_store.specs.Shaped.{ShapedStore, IsFitting};

    ghost Value = { ShapedStore };

    ghost view = { λ a. shaped_of a.shapes.items a.rows.items };

    ghost invariant = { λ a. IsFitting (shaped_of a.shapes.items a.rows.items) };
}

impl Store {
    /// A store of these shapes of which nothing is defined.
    pub fn new(alloc: Global, shapes: &[Shape]) -> Result<Store, NoMemory>
        requires { elements_together shapes.now ≤ 4194304 }
        ensures undefined { IfOk result (λ made. made ≡ undefined_store shapes.now) }
        ensures fitting { IfOk result IsFitting }
    {
        let rows = undefined_rows(alloc, shapes)?;
        let shapes = Vec::from_slice(alloc, shapes)?;
        Ok(Store { shapes, rows })
    }

    /// The shapes of the variables.
    pub fn shapes(&self) -> &[Shape]
        ensures shapes { result.now ≡ self.now.shapes }
        ensures fitting { IsFitting self.now }
    {
        self.shapes.as_slice()
    }

    /// The state of an element. `None` is undefined. It takes constant time.
    pub fn value(&self, element: ElementId) -> Option<i64>
        requires { IsTrue (is_some (cell_of self.now.store element)) }
        ensures value { result ≡ value_at self.now.store element }
        ensures fitting { IsFitting self.now }
    {
        let cells = &self.rows[element.variable as usize];
        cells[element.position as usize]
    }

    /// Puts an element in a state, and leaves all else. It takes constant time.
    pub fn put(&mut self, element: ElementId, value: Option<i64>)
        requires element { IsTrue (is_some (cell_of self.old.store element)) }
        requires fits { IsTrue (state_fits self.old.shapes element value) }
        ensures put { self.new ≡ record self.old { store = put_at self.old.store element value } }
        ensures fitting { IsFitting self.new }
    {
        self.rows[element.variable as usize][element.position as usize] = value;
    }
}

fn undefined_rows(alloc: Global, shapes: &[Shape]) -> Result<Vec<Vec<Option<i64>>>, NoMemory>
    ensures { IfOk result (λ rows. store_of rows.items ≡ map undefined_variable shapes.now) }
{
    let mut rows = Vec::with_capacity(alloc, shapes.len())?;
    for shape in shapes {
        rows.push(Vec::from_elem(alloc, None, shape.elements as usize)?)?;
    }
    Ok(rows)
}
