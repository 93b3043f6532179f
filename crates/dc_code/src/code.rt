//! `Code`, a program as instructions.

ghost use Rattle.std.specs.Prelude.{◌≡◌, IsTrue};
ghost use Rattle.std.specs.List.{list_all};
ghost use Rattle.dc_code.specs.WellFormed.{IsWellFormed};
ghost use Rattle.dc_code.specs.Codes.{CodeLists, is_small, has_small_groups};

use crate::instr::Instr;
use crate::plan::{ConstructCode, Plan};
use dc_int::Shape;
use dc_text::{DcList, DcText};
use std::marker::Model;

/// A program as instructions, with what these speak of: seen as its lists.
#[derive(Drop)]
pub struct Code {
    instructions: DcList<Instr>,
    texts: DcList<DcText>,
    shapes: DcList<Shape>,
    bounds: DcList<DcList<(i64, i64)>>,
    plans: DcList<Plan>,
    entries: DcList<u32>,
    constructs: DcList<ConstructCode>,
}

impl Model for Code {
    ghost use Rattle.std.specs.Prelude.{IsTrue};
    ghost use Rattle.dc_code.specs.Codes.{CodeLists, are_small};

    ghost Value = { CodeLists };

    ghost view = { λ a. record {
      instructions = a.instructions;
      texts = a.texts;
      shapes = a.shapes;
      bounds = a.bounds;
      plans = a.plans;
      entries = a.entries;
      constructs = a.constructs;
    } };

    ghost invariant = { λ a. IsTrue (are_small (record {
      instructions = a.instructions;
      texts = a.texts;
      shapes = a.shapes;
      bounds = a.bounds;
      plans = a.plans;
      entries = a.entries;
      constructs = a.constructs;
    })) };
}

impl Code {
    /// It takes no memory. `bounds` has a list for each shape, which is empty for a scalar; `entries` has a
    /// place for each procedure. The plans are those of the main program, of the procedures, and for each
    /// loop of its header, of its mask if it has one, and of its body.
    pub fn new(
        instructions: DcList<Instr>,
        texts: DcList<DcText>,
        shapes: DcList<Shape>,
        bounds: DcList<DcList<(i64, i64)>>,
        plans: DcList<Plan>,
        entries: DcList<u32>,
        constructs: DcList<ConstructCode>,
    ) -> Code
        requires { IsWellFormed (record {
          instructions = instructions;
          texts = texts;
          shapes = shapes;
          bounds = bounds;
          plans = plans;
          entries = entries;
          constructs = constructs;
        }) }
        ensures { result ≡ record {
          instructions = instructions;
          texts = texts;
          shapes = shapes;
          bounds = bounds;
          plans = plans;
          entries = entries;
          constructs = constructs;
        } }
    {
        Code {
            instructions,
            texts,
            shapes,
            bounds,
            plans,
            entries,
            constructs,
        }
    }

    /// The instructions, by their places.
    pub fn instructions(&self) -> &[Instr]
        ensures { result.now ≡ (self.now).instructions }
    {
        self.instructions.as_slice()
    }

    /// The literals of output items.
    pub fn texts(&self) -> &[DcText]
        ensures { result.now ≡ (self.now).texts }
    {
        self.texts.as_slice()
    }

    /// What the elements of each outside variable hold, in declared order.
    pub fn shapes(&self) -> &[Shape]
        ensures { result.now ≡ (self.now).shapes }
    {
        self.shapes.as_slice()
    }

    /// The least and the greatest subscript of each dimension of each outside variable.
    pub fn bounds(&self) -> &[DcList<(i64, i64)>]
        ensures bounds { result.now ≡ (self.now).bounds }
        ensures small { IsTrue (list_all is_small result.now) }
    {
        self.bounds.as_slice()
    }

    /// What the frames of the parts have.
    pub fn plans(&self) -> &[Plan]
        ensures plans { result.now ≡ (self.now).plans }
        ensures small { IsTrue (list_all has_small_groups result.now) }
    {
        self.plans.as_slice()
    }

    /// Where each procedure begins.
    pub fn entries(&self) -> &[u32]
        ensures { result.now ≡ (self.now).entries }
    {
        self.entries.as_slice()
    }

    /// The loops, in the order of the text.
    pub fn constructs(&self) -> &[ConstructCode]
        ensures { result.now ≡ (self.now).constructs }
    {
        self.constructs.as_slice()
    }
}
