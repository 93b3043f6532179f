//! The instructions of the statements of a block.

ghost use Rattle.std.specs.Prelude.{◌≡◌, ◌+◌, ◌++◌, [], ◌∷◌, length, map, IfOk, OnOk, IsTrue};
ghost use Rattle.dc_code.specs.declared.instr.What.{What};
ghost use Rattle.dc_tree.specs.Blocks.{item, items, items_from, plain};
ghost use Rattle.dc_tree.specs.Statements.{deed, statement};
ghost use Rattle.dc_lower.specs.Adding.{AddsDeed, AddsItem, AddsBlock};
ghost use Rattle.dc_actions.specs.Deeds.{lined, deed_has_code};
ghost use Rattle.dc_lower.specs.Blocks.{part_code, texts_of_block, groups_of_block};
ghost use Rattle.dc_lower.specs.Held.{says_has_code, item_has_code, block_has_code};
ghost use Rattle.dc_actions.specs.Naming.{scope_of, AreNamed};

use dc_actions::{Names, assignment, filling, held, output};
use dc_code::{Group, Instr, What};
use dc_text::{DcList, DcText, NoMemory};
use dc_tree::{Action, Block, Node, Stmt};
use std::alloc::Global;

/// What there is of a part so far: its instructions, the literals of its output, its groups of slots, and how
/// many loops it enters.
#[derive(Drop)]
pub(crate) struct Lowering {
    pub instructions: DcList<Instr>,
    pub texts: DcList<DcText>,
    pub groups: DcList<Group>,
    pub loops: u32,
}

impl Lowering {
    /// A part with no instructions, which has these groups. It takes no memory.
    fn new(alloc: Global, groups: DcList<Group>) -> Lowering
        ensures instructions { result.instructions ≡ [] }
        ensures texts { result.texts ≡ [] }
        ensures groups { result.groups ≡ groups }
        ensures loops { result.loops ≡ 0 }
    {
        Lowering {
            instructions: DcList::new(alloc),
            texts: DcList::new(alloc),
            groups,
            loops: 0,
        }
    }

    /// The instructions of a statement.
    fn deed(
        &mut self,
        alloc: Global,
        names: &Names<'_>,
        action: &Action,
    ) -> Result<DcList<What>, NoMemory>
        requires names { AreNamed names.now }
        requires held { IsTrue (deed_has_code (scope_of names.now) (deed action.now)) }
        ensures { IfOk result (λ whats.
            AddsDeed (scope_of names.now) self.old self.new whats (deed action.now)) }
    {
        let mut whats = DcList::new(alloc);
        match action {
            Action::Assign { left, right } => {
                assignment(alloc, names, &mut whats, left, right)?;
                Ok(whats)
            }
            Action::Fill { name, items } => {
                let text = name.as_bytes();
                let items = items.as_slice();
                filling(alloc, names, &mut whats, &mut self.groups, text, items)?;
                Ok(whats)
            }
            Action::Print { items, .. } => {
                let items = items.as_slice();
                output(alloc, names, &mut whats, &mut self.texts, items)?;
                Ok(whats)
            }
            _ => unreachable!(),
        }
    }

    /// Adds the instructions of a statement.
    fn says(
        &mut self,
        alloc: Global,
        names: &Names<'_>,
        line: u32,
        stmt: &Stmt,
    ) -> Result<(), NoMemory>
        requires names { AreNamed names.now }
        requires held { IsTrue (says_has_code (scope_of names.now) (statement stmt.now)) }
        ensures { OnOk result (AddsItem (scope_of names.now) self.old self.new
            (plain (record { line = line; says = statement stmt.now }))) }
    {
        match stmt {
            Stmt::Act(action) => {
                let whats = self.deed(alloc, names, action)?;
                add_lined(&mut self.instructions, line, whats.as_slice())
            }
            _ => unreachable!(),
        }
    }

    /// Adds the entry of the next loop.
    fn enter(&mut self, line: u32) -> Result<(), NoMemory>
        ensures instructions { OnOk result ((self.new).instructions
            ≡ (self.old).instructions ++ lined line (What.Enter (self.old).loops ∷ [])) }
        ensures texts { (self.new).texts ≡ (self.old).texts }
        ensures groups { (self.new).groups ≡ (self.old).groups }
        ensures loops { OnOk result ((self.new).loops ≡ (self.old).loops + 1) }
    {
        let what = What::Enter { c: self.loops };
        self.instructions.push(Instr { line, what })?;
        self.loops = held(self.loops as usize + 1)?;
        Ok(())
    }

    /// Adds the instructions of a statement or the entry of a loop.
    #[tactic(auto, using(dc_tree::proofs::Views::statement_views))]
    fn node(&mut self, alloc: Global, names: &Names<'_>, node: &Node) -> Result<(), NoMemory>
        requires names { AreNamed names.now }
        requires held { IsTrue (item_has_code (scope_of names.now) (item node.now)) }
        ensures { OnOk result (AddsItem (scope_of names.now) self.old self.new (item node.now)) }
    {
        match node {
            Node::Plain(lined) => self.says(alloc, names, lined.line, &lined.stmt),
            Node::Loop { head, .. } => self.enter(head.line),
            _ => unreachable!(),
        }
    }

    /// Adds the instructions of statements, one after another.
    #[tactic(auto, using(dc_tree::proofs::Views::statement_views))]
    fn block(&mut self, alloc: Global, names: &Names<'_>, nodes: &[Node]) -> Result<(), NoMemory>
        requires names { AreNamed names.now }
        requires held { IsTrue (block_has_code (scope_of names.now)
            (items_from (map item nodes.now))) }
        ensures { OnOk result (AddsBlock (scope_of names.now) self.old self.new
            (items_from (map item nodes.now))) }
    {
        for node in nodes {
            self.node(alloc, names, node)?;
        }
        Ok(())
    }
}

/// Adds instructions of one line.
#[tactic(auto, using(dc_sorts::proofs::Knowing::gathering))]
pub(crate) fn add_lined(
    instructions: &mut DcList<Instr>,
    line: u32,
    whats: &[What],
) -> Result<(), NoMemory>
    ensures { OnOk result (instructions.new ≡ instructions.old ++ lined line whats.now) }
{
    for what in whats {
        instructions.push(Instr { line, what: *what })?;
    }
    Ok(())
}

/// The code of a block, which has these groups before, with its end at a line.
#[tactic(auto, using(dc_tree::proofs::Views::statement_views))]
pub(crate) fn part(
    alloc: Global,
    names: &Names<'_>,
    groups: DcList<Group>,
    block: &Block,
    line: u32,
) -> Result<Lowering, NoMemory>
    requires names { AreNamed names.now }
    requires held { IsTrue (block_has_code (scope_of names.now) (items block.now)) }
    ensures instructions { IfOk result (λ made. made.instructions
        ≡ part_code (scope_of names.now) 0 (length groups) 0 (items block.now) line) }
    ensures texts { IfOk result (λ made. made.texts ≡ texts_of_block (items block.now)) }
    ensures groups { IfOk result (λ made. made.groups
        ≡ groups ++ groups_of_block (scope_of names.now) (items block.now)) }
{
    let mut made = Lowering::new(alloc, groups);
    made.block(alloc, names, block.nodes.as_slice())?;
    made.instructions.push(Instr {
        line,
        what: What::End,
    })?;
    Ok(made)
}
