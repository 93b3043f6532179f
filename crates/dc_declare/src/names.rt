//! Names in a row, none twice, with a table of their places.

ghost use Rattle.std.specs.Prelude.{◌≡◌, ◌++◌, ◌∷◌, [], None, OnOk, OnErr, is_some};
ghost use Rattle.dc_declare.specs.Names.{place_of, holds, with_name, each_once, twice_findings};
ghost use Rattle.dc_tree.specs.Findings.{finding_if, least_with_all};

use dc_int::Kind;
use dc_text::{DcText, NoMemory};
use dc_tree::{Intent, LeastFinding, Role, Symbol, Symbols};
use std::alloc::Global;
use std::marker::Model;

/// The scope of all names of the table.
const ONLY_SCOPE: u32 = 1;

/// Names in a row, of which none stands twice.
#[derive(Drop)]
pub(crate) struct Names {
    table: Symbols,
}

impl Model for Names {
    ghost use Rattle.std.specs.Prelude.{ℕ, List, map};
    ghost use Rattle.dc_declare.specs.Names.{AreNames, symbol_name};

    ghost Value = { List (List ℕ) };

    ghost view = { λ a. map symbol_name a.table };

    ghost invariant = { λ a. AreNames a.table };
}

impl Names {
    pub(crate) fn new(alloc: Global) -> Names
        ensures { result ≡ [] }
    {
        Names {
            table: Symbols::new(alloc),
        }
    }

    /// Where a name stands, from 0.
    pub(crate) fn place(&self, name: &[u8]) -> Option<usize>
        ensures { result ≡ place_of self.now name.now }
    {
        self.table.place(ONLY_SCOPE, name)
    }

    pub(crate) fn holds(&self, name: &[u8]) -> bool
        ensures { result ≡ holds self.now name.now }
    {
        self.place(name).is_some()
    }

    /// Adds a name that isn't there.
    fn push(&mut self, alloc: Global, name: DcText) -> Result<(), NoMemory>
        requires { place_of self.old name ≡ None }
        ensures ok { OnOk result (self.new ≡ self.old ++ name ∷ []) }
        ensures err { OnErr result (self.new ≡ self.old) }
    {
        self.table.push(
            alloc,
            Symbol {
                scope: ONLY_SCOPE,
                name,
                role: Role::Dummy {
                    place: 0,
                    logical: false,
                    kind: Kind::K4,
                    intent: Intent::Into,
                },
            },
        )
    }

    /// Adds a name, where it isn't there yet.
    pub(crate) fn add(&mut self, alloc: Global, name: &DcText) -> Result<(), NoMemory>
        ensures { OnOk result (self.new ≡ with_name self.old name.now) }
    {
        if self.holds(name.as_bytes()) {
            return Ok(());
        }
        self.push(alloc, name.copy(alloc)?)
    }
}

/// Gathers names, and notes where one stands twice.
#[tactic(auto, using(dc_tree::proofs::Findings::notes))]
pub(crate) fn gather(
    alloc: Global,
    line: u32,
    names: &[DcText],
    gathered: &mut Names,
    found: &mut LeastFinding,
) -> Result<(), NoMemory>
    ensures names { OnOk result (gathered.new ≡ each_once gathered.old names.now) }
    ensures findings { OnOk result (found.new
        ≡ least_with_all found.old (twice_findings line gathered.old names.now)) }
{
    for name in names {
        found.note_if(gathered.holds(name.as_bytes()), 19, line);
        gathered.add(alloc, name)?;
    }
    Ok(())
}
