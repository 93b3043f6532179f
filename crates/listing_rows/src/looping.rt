//! The listing of a code with a loop.

ghost use Rattle.std.specs.Prelude.{◌≡◌, IfOk, ◌∷◌, []};
ghost use Rattle.listing_rows.specs.Small.{at_line, instructions, shapes, bounds, empty_plan, body_plan, construct, small};

use dc_code::{Code, ConstructCode, Group, Instr, Plan, What};
use dc_int::{Kind, Locality, Shape};
use dc_listing::listing;
use dc_text::{DcList, NoMemory};
use std::alloc::Global;
use std::test::Fail;

const INSTRUCTIONS: [Instr; 13] = [
    Instr {
        line: 2,
        what: What::Enter { c: 0 },
    },
    Instr {
        line: 5,
        what: What::End,
    },
    Instr {
        line: 2,
        what: What::Const { k: Kind::K4, n: 1 },
    },
    Instr {
        line: 2,
        what: What::Const { k: Kind::K4, n: 3 },
    },
    Instr {
        line: 2,
        what: What::Const { k: Kind::K4, n: 1 },
    },
    Instr {
        line: 2,
        what: What::End,
    },
    Instr {
        line: 3,
        what: What::SubscriptSlot { s: 0 },
    },
    Instr {
        line: 3,
        what: What::LoadSlot { s: 0 },
    },
    Instr {
        line: 3,
        what: What::SubscriptSlot { s: 0 },
    },
    Instr {
        line: 3,
        what: What::LoadSlot { s: 0 },
    },
    Instr {
        line: 3,
        what: What::Subscript { v: 0 },
    },
    Instr {
        line: 3,
        what: What::Store { v: 0 },
    },
    Instr {
        line: 4,
        what: What::End,
    },
];

fn instructions(alloc: Global) -> Result<DcList<Instr>, NoMemory>
    ensures { IfOk result (λ made. made ≡ instructions) }
{
    let items = Vec::from_array(alloc, INSTRUCTIONS)?;
    Ok(DcList::from_vec(items))
}

fn shapes(alloc: Global) -> Result<DcList<Shape>, NoMemory>
    ensures { IfOk result (λ made. made ≡ shapes) }
{
    let mut shapes = DcList::new(alloc);
    shapes.push(Shape {
        kind: Kind::K4,
        logical: false,
        elements: 3,
    })?;
    Ok(shapes)
}

fn bounds(alloc: Global) -> Result<DcList<DcList<(i64, i64)>>, NoMemory>
    ensures { IfOk result (λ made. made ≡ bounds) }
{
    let mut dimensions = DcList::new(alloc);
    dimensions.push((1, 3))?;
    let mut bounds = DcList::new(alloc);
    bounds.push(dimensions)?;
    Ok(bounds)
}

fn empty_plan(alloc: Global) -> Plan
    ensures { result ≡ empty_plan }
{
    Plan {
        dummies: DcList::new(alloc),
        groups: DcList::new(alloc),
    }
}

fn body_plan(alloc: Global) -> Result<Plan, NoMemory>
    ensures { IfOk result (λ made. made ≡ body_plan) }
{
    let mut groups = DcList::new(alloc);
    groups.push(Group {
        kind: Kind::K4,
        logical: false,
        bounds: DcList::new(alloc),
    })?;
    Ok(Plan {
        dummies: DcList::new(alloc),
        groups,
    })
}

fn plans(alloc: Global) -> Result<DcList<Plan>, NoMemory>
    ensures { IfOk result (λ made. made ≡ empty_plan ∷ empty_plan ∷ body_plan ∷ []) }
{
    let mut plans = DcList::new(alloc);
    plans.push(empty_plan(alloc))?;
    plans.push(empty_plan(alloc))?;
    plans.push(body_plan(alloc)?)?;
    Ok(plans)
}

fn constructs(alloc: Global) -> Result<DcList<ConstructCode>, NoMemory>
    ensures { IfOk result (λ made. made ≡ construct ∷ []) }
{
    let mut kinds = DcList::new(alloc);
    kinds.push(Kind::K4)?;
    let mut localities = DcList::new(alloc);
    localities.push(Locality::Plain)?;
    let mut constructs = DcList::new(alloc);
    constructs.push(ConstructCode {
        line: 2,
        width: 1,
        kinds,
        header: 2,
        mask: None,
        body: 6,
        localities,
    })?;
    Ok(constructs)
}

/// The code of `do concurrent (i = 1:3)` in line 2 with the body `a(i) = i` in line 3.
fn small(alloc: Global) -> Result<Code, NoMemory>
    ensures { IfOk result (λ made. made ≡ small) }
{
    let instructions = instructions(alloc)?;
    let shapes = shapes(alloc)?;
    let bounds = bounds(alloc)?;
    let plans = plans(alloc)?;
    let constructs = constructs(alloc)?;
    let texts = DcList::new(alloc);
    let entries = DcList::new(alloc);
    Ok(Code::new(
        instructions,
        texts,
        shapes,
        bounds,
        plans,
        entries,
        constructs,
    ))
}

const LISTED: &[u8] = b"0 2 Enter 0
1 5 End
2 2 Const 4 1
3 2 Const 4 3
4 2 Const 4 1
5 2 End
6 3 SubscriptSlot 0
7 3 LoadSlot 0
8 3 SubscriptSlot 0
9 3 LoadSlot 0
10 3 Subscript 0
11 3 Store 0
12 4 End
shape 0 4 F 3
bounds 0 1 1 3
plan 0 0 0
plan 1 0 0
plan 2 0 1 4 F 0
construct 0 2 1 1 4 2 - 6 1 Plain
";

#[test]
fn a_loop_is_listed(rt: HostRuntime) -> Result<(), Fail> {
    let code = small(rt.alloc())?;
    let text = listing(rt.alloc(), &code)?;
    assert_eq!(rt; text.as_bytes(), LISTED);
    Ok(())
}
