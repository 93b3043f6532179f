//! The lists of the code of a program: the main program, and behind it the header and the block of each loop.

ghost use Rattle.std.specs.Prelude.{
  ◌≡◌,
  ◌≤◌,
  ◌+◌,
  ◌++◌,
  [],
  ◌∷◌,
  None,
  length,
  map,
  IfOk,
  OnOk,
  IsTrue,
};
ghost use Rattle.dc_int.specs.declared.variable.Locality.{Locality};
ghost use Rattle.dc_entities.specs.Numbering.{numbers_of};
ghost use Rattle.dc_sorts.specs.Standing.{index_entity};
ghost use Rattle.dc_tree.specs.Blocks.{item, items, items_from, line_of, source_of};
ghost use Rattle.dc_form.specs.BuiltPrograms.{
  are_built_symbols,
  is_built_loop,
  is_built_item,
  are_built_items,
};
ghost use Rattle.dc_tree.specs.Entities.{main_scope, with_names};
ghost use Rattle.dc_tree.specs.Statements.{statement};
ghost use Rattle.dc_meaning.specs.Looping.{index_name};
ghost use Rattle.dc_meaning.specs.WalkScope.{index_scope};
ghost use Rattle.dc_lower.specs.Held.{block_has_code};
ghost use Rattle.dc_lower.specs.Lowerable.{IsLowerable, are_held_symbols};
ghost use Rattle.dc_lower.specs.Lowered.{lowered, no_slots};
ghost use Rattle.dc_actions.specs.Naming.{scope_of, AreNamed};
ghost use Rattle.dc_lower.specs.Variables.{shapes_of};
ghost use Rattle.dc_lower.specs.Wholes.{
  AddsLoops,
  IsBegun,
  lists_code,
  loop_at,
  loops_at,
  loops_behind,
  inside_has_code,
  insides_have_code,
  plain_localities,
};

use crate::blocks::{Lowering, part};
use crate::loops::{header, index_groups, plan};
use crate::variables::{Variables, outside_variables};
use dc_actions::{Names, held};
use dc_code::{ConstructCode, Instr, Plan};
use dc_entities::Numbering;
use dc_int::{Kind, Locality, Shape};
use dc_meaning::{block_standing, first_index, index_kind, index_list};
use dc_sorts::IndexName;
use dc_text::{DcList, DcText, NoMemory};
use dc_tree::{Block, Lined, Node, Program, Symbols};
use std::alloc::Global;

/// The lists of a code.
#[derive(Drop)]
pub(crate) struct Lists {
    pub instructions: DcList<Instr>,
    pub texts: DcList<DcText>,
    pub shapes: DcList<Shape>,
    pub bounds: DcList<DcList<(i64, i64)>>,
    pub plans: DcList<Plan>,
    pub entries: DcList<u32>,
    pub constructs: DcList<ConstructCode>,
}

/// The names of the main program, with these indexes in front.
fn names_within<'a>(
    symbols: &'a Symbols,
    numbering: &'a Numbering,
    indexes: &'a [IndexName],
) -> Names<'a>
    requires symbols { IsTrue (are_built_symbols symbols.now) }
    requires numbers { numbering.now ≡ numbers_of symbols.now }
    requires one { length indexes.now ≤ 1 }
    ensures names { AreNamed result }
    ensures scope { scope_of result
        ≡ with_names (map index_entity indexes.now) (length indexes.now) (main_scope symbols.now) }
{
    Names {
        standing: block_standing(symbols, indexes),
        numbering,
    }
}

/// The localities of variables in a loop that names none.
#[tactic(auto, using(dc_sorts::proofs::Knowing::gathering))]
fn localities(alloc: Global, shapes: &[Shape]) -> Result<DcList<Locality>, NoMemory>
    ensures { IfOk result (λ made. made ≡ plain_localities shapes.now) }
{
    let mut made = DcList::new(alloc);
    for _shape in shapes {
        made.push(Locality::Plain)?;
    }
    Ok(made)
}

fn kinds(alloc: Global, kind: Kind) -> Result<DcList<Kind>, NoMemory>
    ensures { IfOk result (λ made. made ≡ kind ∷ []) }
{
    let mut made = DcList::new(alloc);
    made.push(kind)?;
    Ok(made)
}

impl Lists {
    /// The next loop, of one index of a kind, with the header at the end of the code so far and the block
    /// behind so many more instructions.
    fn construct(
        &self,
        alloc: Global,
        line: u32,
        kind: Kind,
        header: usize,
    ) -> Result<ConstructCode, NoMemory>
        ensures { IfOk result (λ made. made ≡ record {
          line = line;
          width = 1;
          kinds = kind ∷ [];
          header = length (self.now).instructions;
          mask = None;
          body = length (self.now).instructions + header;
          localities = plain_localities (self.now).shapes;
        }) }
    {
        let at = held(self.instructions.len())?;
        let more = held(header)?;
        Ok(ConstructCode {
            line,
            width: 1,
            kinds: kinds(alloc, kind)?,
            header: at,
            mask: None,
            body: held(at as usize + more as usize)?,
            localities: localities(alloc, self.shapes.as_slice())?,
        })
    }

    /// Adds the header and the block of a loop.
    #[tactic(auto, using(dc_sorts::proofs::Knowing::gathering))]
    fn add_parts(
        &mut self,
        alloc: Global,
        construct: ConstructCode,
        header: DcList<Instr>,
        block: Lowering,
    ) -> Result<(), NoMemory>
        ensures instructions { OnOk result ((self.new).instructions
            ≡ (self.old).instructions ++ (header ++ block.instructions)) }
        ensures plans { OnOk result ((self.new).plans ≡ (self.old).plans
            ++ (no_slots ∷ record { dummies = []; groups = block.groups } ∷ [])) }
        ensures constructs { OnOk result ((self.new).constructs
            ≡ (self.old).constructs ++ construct ∷ []) }
        ensures texts { (self.new).texts ≡ (self.old).texts }
        ensures shapes { (self.new).shapes ≡ (self.old).shapes }
        ensures bounds { (self.new).bounds ≡ (self.old).bounds }
        ensures entries { (self.new).entries ≡ (self.old).entries }
    {
        let Lowering {
            instructions,
            groups,
            ..
        } = block;
        self.instructions.append(header)?;
        self.instructions.append(instructions)?;
        self.plans.push(plan(alloc, DcList::new(alloc)))?;
        self.plans.push(plan(alloc, groups))?;
        self.constructs.push(construct)
    }

    /// Adds a loop.
    fn add_loop(
        &mut self,
        alloc: Global,
        symbols: &Symbols,
        numbering: &Numbering,
        head: &Lined,
        body: &Block,
    ) -> Result<(), NoMemory>
        requires symbols { IsTrue (are_built_symbols symbols.now) }
        requires numbers { numbering.now ≡ numbers_of symbols.now }
        requires built { IsTrue (is_built_loop (main_scope symbols.now)
            (statement (head.now).stmt) (items body.now)) }
        requires held { IsTrue (block_has_code (index_scope symbols.now
            (index_name (statement (head.now).stmt))) (items body.now)) }
        requires shapes { (self.old).shapes ≡ shapes_of symbols.now }
        ensures { OnOk result (AddsLoops symbols.now self.old self.new (loop_at symbols.now
            (length (self.old).constructs) (line_of head.now) (items body.now))) }
    {
        let index = first_index(&head.stmt);
        let kind = index_kind(symbols, numbering, index.name.as_bytes());
        let outer = names_within(symbols, numbering, &[]);
        let header = header(alloc, &outer, head.line, kind, index)?;
        let indexes = index_list(alloc, &index.name, kind)?;
        let inner = names_within(symbols, numbering, indexes.as_slice());
        let block = part(alloc, &inner, index_groups(alloc, kind)?, body, head.line)?;
        let construct = self.construct(alloc, head.line, kind, header.len())?;
        self.add_parts(alloc, construct, header, block)?;
        Ok(())
    }

    /// Adds the loop of a node, if it is one.
    #[tactic(auto, using(dc_tree::proofs::Views::statement_views))]
    fn add_node(
        &mut self,
        alloc: Global,
        symbols: &Symbols,
        numbering: &Numbering,
        node: &Node,
    ) -> Result<(), NoMemory>
        requires symbols { IsTrue (are_built_symbols symbols.now) }
        requires numbers { numbering.now ≡ numbers_of symbols.now }
        requires built { IsTrue (is_built_item (main_scope symbols.now) (item node.now)) }
        requires held { IsTrue (inside_has_code symbols.now (item node.now)) }
        requires shapes { (self.old).shapes ≡ shapes_of symbols.now }
        ensures { OnOk result (AddsLoops symbols.now self.old self.new
            (loops_at symbols.now (length (self.old).constructs) (item node.now))) }
    {
        match node {
            Node::Plain(_) => Ok(()),
            Node::Loop { head, body, .. } => self.add_loop(alloc, symbols, numbering, head, body),
            _ => unreachable!(),
        }
    }

    /// Adds the loops among nodes, in their order.
    #[tactic(auto, using(dc_tree::proofs::Views::statement_views))]
    fn add_loops(
        &mut self,
        alloc: Global,
        symbols: &Symbols,
        numbering: &Numbering,
        nodes: &[Node],
    ) -> Result<(), NoMemory>
        requires symbols { IsTrue (are_built_symbols symbols.now) }
        requires numbers { numbering.now ≡ numbers_of symbols.now }
        requires built { IsTrue (are_built_items (main_scope symbols.now)
            (items_from (map item nodes.now))) }
        requires held { IsTrue (insides_have_code symbols.now (items_from (map item nodes.now))) }
        requires shapes { (self.old).shapes ≡ shapes_of symbols.now }
        ensures { OnOk result (AddsLoops symbols.now self.old self.new (loops_behind symbols.now
            (length (self.old).constructs) (items_from (map item nodes.now)))) }
    {
        for node in nodes {
            self.add_node(alloc, symbols, numbering, node)?;
        }
        Ok(())
    }
}

/// The lists with the main program alone.
fn begun(
    alloc: Global,
    program: &Program,
    symbols: &Symbols,
    numbering: &Numbering,
) -> Result<Lists, NoMemory>
    requires lowerable { IsLowerable symbols.now (source_of program.now) }
    requires numbers { numbering.now ≡ numbers_of symbols.now }
    ensures begun { IfOk result (λ made. IsBegun symbols.now (source_of program.now) made) }
    ensures held { OnOk result (IsTrue (are_held_symbols symbols.now)) }
{
    let Variables { shapes, bounds } = outside_variables(alloc, symbols)?;
    let names = names_within(symbols, numbering, &[]);
    let line = program.close.line;
    let Lowering {
        instructions,
        texts,
        groups,
        ..
    } = part(alloc, &names, DcList::new(alloc), &program.body, line)?;
    let mut plans = DcList::new(alloc);
    plans.push(plan(alloc, groups))?;
    Ok(Lists {
        instructions,
        texts,
        shapes,
        bounds,
        plans,
        entries: DcList::new(alloc),
        constructs: DcList::new(alloc),
    })
}

/// The lists of the code of a program.
pub(crate) fn code_lists(
    alloc: Global,
    program: &Program,
    symbols: &Symbols,
) -> Result<Lists, NoMemory>
    requires { IsLowerable symbols.now (source_of program.now) }
    ensures lists { IfOk result (λ made.
        lists_code made ≡ lowered symbols.now (source_of program.now)) }
    ensures held { OnOk result (IsTrue (are_held_symbols symbols.now)) }
{
    let numbering = Numbering::new(alloc, symbols)?;
    let mut made = begun(alloc, program, symbols, &numbering)?;
    made.add_loops(alloc, symbols, &numbering, program.body.nodes.as_slice())?;
    Ok(made)
}
