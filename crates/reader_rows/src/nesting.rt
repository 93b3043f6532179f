//! A program with every construct nests to one tree, and a missing end is told on its line.
use dc_nest::nest;
use dc_text::{DcList, DcText, NoMemory};
use dc_tree::{
    Action, Block, Counted, Expr, Fail, Lined, Node, Refusal, Stmt, TypeSpec, Unit, UseForm,
};
use std::alloc::Global;
use std::test;

/// Puts a statement behind the others, on the line of this number.
fn put(list: &mut DcList<Lined>, line: u32, stmt: Stmt) -> Result<(), NoMemory> {
    list.push(Lined { line, stmt })
}

fn name(alloc: Global) -> Result<DcText, NoMemory> {
    DcText::from_bytes(alloc, b"n")
}

fn yes() -> Expr {
    Expr::Truth(true)
}

fn action() -> Stmt {
    Stmt::Act(Action::Continue)
}

fn use_line(alloc: Global) -> Result<Stmt, NoMemory> {
    let module = name(alloc)?;
    Ok(Stmt::Use {
        form: UseForm::Plain,
        module,
        only: DcList::new(alloc),
    })
}

fn declaration(alloc: Global) -> Stmt {
    Stmt::Declare {
        spec: TypeSpec::Logical,
        attrs: DcList::new(alloc),
        colons: false,
        entities: DcList::new(alloc),
    }
}

fn counted(alloc: Global) -> Result<Stmt, NoMemory> {
    let name = name(alloc)?;
    Ok(Stmt::Do {
        label: None,
        counted: Some(Counted {
            name,
            first: yes(),
            last: yes(),
            step: None,
        }),
    })
}

fn concurrent(alloc: Global) -> Stmt {
    Stmt::Concurrent {
        label: None,
        spec: None,
        indexes: DcList::new(alloc),
        mask: None,
        locality: DcList::new(alloc),
    }
}

fn heading(alloc: Global, function: bool) -> Result<Stmt, NoMemory> {
    let name = name(alloc)?;
    Ok(Stmt::Procedure {
        prefix: DcList::new(alloc),
        function,
        name,
        brackets: true,
        dummies: DcList::new(alloc),
        result: None,
    })
}

fn end(unit: Option<Unit>) -> Stmt {
    Stmt::End { unit, name: None }
}

/// Lines 1 to 4: the beginning of a program, and its front.
fn front(alloc: Global, list: &mut DcList<Lined>) -> Result<(), NoMemory> {
    put(list, 1, Stmt::Program(name(alloc)?))?;
    put(list, 2, use_line(alloc)?)?;
    put(list, 3, Stmt::ImplicitNone)?;
    put(list, 4, declaration(alloc))
}

/// Lines 5 to 11: IF with ELSE IF and ELSE.
fn branch(list: &mut DcList<Lined>) -> Result<(), NoMemory> {
    put(list, 5, Stmt::IfThen(yes()))?;
    put(list, 6, action())?;
    put(list, 7, Stmt::ElseIf(yes()))?;
    put(list, 8, action())?;
    put(list, 9, Stmt::Else)?;
    put(list, 10, action())?;
    put(list, 11, Stmt::EndIf)
}

/// Lines 12 to 16: SELECT CASE with CASE and CASE DEFAULT.
fn selection(alloc: Global, list: &mut DcList<Lined>) -> Result<(), NoMemory> {
    put(list, 12, Stmt::Select(yes()))?;
    put(list, 13, Stmt::Case(DcList::new(alloc)))?;
    put(list, 14, action())?;
    put(list, 15, Stmt::CaseDefault)?;
    put(list, 16, Stmt::EndSelect)
}

/// Lines 17 to 24: a counted DO and DO WHILE in it, then DO, and DO CONCURRENT.
fn loops(alloc: Global, list: &mut DcList<Lined>) -> Result<(), NoMemory> {
    put(list, 17, counted(alloc)?)?;
    put(
        list,
        18,
        Stmt::DoWhile {
            label: None,
            test: yes(),
        },
    )?;
    put(list, 19, Stmt::EndDo(None))?;
    put(list, 20, Stmt::EndDo(None))?;
    put(
        list,
        21,
        Stmt::Do {
            label: None,
            counted: None,
        },
    )?;
    put(list, 22, Stmt::EndDo(None))?;
    put(list, 23, concurrent(alloc))?;
    put(list, 24, Stmt::EndDo(None))
}

/// Lines 25 to 30: CONTAINS, a function and a subroutine.
fn procedures(alloc: Global, list: &mut DcList<Lined>) -> Result<(), NoMemory> {
    put(list, 25, Stmt::Contains)?;
    put(list, 26, heading(alloc, true)?)?;
    put(list, 27, Stmt::ImplicitNone)?;
    put(list, 28, end(Some(Unit::Function)))?;
    put(list, 29, heading(alloc, false)?)?;
    put(list, 30, end(Some(Unit::Subroutine)))
}

fn statements(alloc: Global) -> Result<DcList<Lined>, NoMemory> {
    let mut list = DcList::new(alloc);
    front(alloc, &mut list)?;
    branch(&mut list)?;
    selection(alloc, &mut list)?;
    loops(alloc, &mut list)?;
    procedures(alloc, &mut list)?;
    Ok(list)
}

/// Whether a node is an IF construct of three arms with a statement each.
fn is_branch(node: Option<&Node>) -> bool {
    match node {
        Some(Node::If { arms, close }) => { arms.len() == 3 && close.line == 11 }
        _ => false,
    }
}

fn is_selection(node: Option<&Node>) -> bool {
    match node {
        Some(Node::Select { head, arms, close }) => {
            head.line == 12 && arms.len() == 2 && close.line == 16
        }
        _ => false,
    }
}

/// Whether a node is a loop on these lines, with so many nodes inside.
fn is_loop(node: Option<&Node>, first: u32, last: u32, inside: usize) -> bool {
    match node {
        Some(Node::Loop { head, body, close }) => {
            head.line == first && body.nodes.len() == inside && close.line == last
        }
        _ => false,
    }
}

fn has_all(body: &Block) -> bool {
    let nodes = &body.nodes;
    nodes.len() == 5
        && is_branch(nodes.get(0))
        && is_selection(nodes.get(1))
        && is_loop(nodes.get(2), 17, 20, 1)
        && is_loop(nodes.get(3), 21, 22, 0)
        && is_loop(nodes.get(4), 23, 24, 0)
}

#[test]
fn every_construct_is_nested(rt: HostRuntime) -> Result<(), test::Fail> {
    let mut list = statements(rt.alloc())?;
    put(&mut list, 31, end(Some(Unit::Program)))?;
    let program = nest(rt.alloc(), list)?;
    assert_eq!(rt; program.front.len(), 3);
    assert!(rt; has_all(&program.body));
    assert_eq!(rt; program.contains, Some(25));
    assert_eq!(rt; program.procedures.len(), 2);
    assert_eq!(rt; program.close.line, 31);
    Ok(())
}

#[test]
fn a_missing_end_is_told(rt: HostRuntime) -> Result<(), test::Fail> {
    let list = statements(rt.alloc())?;
    let refusal = match nest(rt.alloc(), list) {
        Err(Fail::Refused(refusal)) => Some(refusal),
        _ => None,
    };
    assert_eq!(rt; refusal, Some(Refusal { rule: 13, line: 30 }));
    Ok(())
}
