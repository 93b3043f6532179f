//! A small code made by hand, run over a store.

use crate::calls::{TURNS, go, small_store};
use dc_code::{Code, Instr, Plan, What};
use dc_int::{Kind, Shape};
use dc_store::WholeStore;
use dc_text::{DcList, DcText, NoMemory};
use dc_vm::{Ended, Frame};
use std::alloc::Global;
use std::test::Fail;

const INSTRUCTIONS: [Instr; 8] = [
    Instr {
        line: 1,
        what: What::Const { k: Kind::K4, n: 42 },
    },
    Instr {
        line: 1,
        what: What::Subscript { v: 0 },
    },
    Instr {
        line: 1,
        what: What::Store { v: 0 },
    },
    Instr {
        line: 2,
        what: What::Subscript { v: 0 },
    },
    Instr {
        line: 2,
        what: What::Load { v: 0 },
    },
    Instr {
        line: 2,
        what: What::PutNumber,
    },
    Instr {
        line: 2,
        what: What::PutEnd,
    },
    Instr {
        line: 3,
        what: What::End,
    },
];

/// It stores 42 in a scalar, reads it back and puts it on a line, and pauses where the line has to be written.
fn small(alloc: Global) -> Result<Code, NoMemory> {
    let instructions = DcList::from_vec(Vec::from_array(alloc, INSTRUCTIONS)?);
    let mut shapes = DcList::new(alloc);
    shapes.push(Shape {
        kind: Kind::K4,
        logical: false,
        elements: 1,
    })?;
    let mut bounds = DcList::new(alloc);
    bounds.push(DcList::new(alloc))?;
    let mut plans = DcList::new(alloc);
    plans.push(Plan {
        dummies: DcList::new(alloc),
        groups: DcList::new(alloc),
    })?;
    let code = Code::new(
        instructions,
        DcList::new(alloc),
        shapes,
        bounds,
        plans,
        DcList::new(alloc),
        DcList::new(alloc),
    );
    Ok(code)
}

/// Where its run stops, and the line so far. `None` is another code.
fn ran(alloc: Global) -> Result<Option<(Ended, DcText)>, NoMemory> {
    let code = small(alloc)?;
    let Some(mut store) = small_store(alloc, &code)? else {
        return Ok(None);
    };
    let mut cells = WholeStore::new(&mut store);
    let mut frame = Frame::new(alloc, &code, 0)?;
    let ended = go(alloc, &code, 0, &mut frame, &mut cells)?;
    Ok(Some((ended, DcText::from_bytes(alloc, frame.line())?)))
}

#[test]
fn a_stored_value_is_put(rt: HostRuntime) -> Result<(), Fail> {
    let ran = ran(rt.alloc())?;
    assert!(rt; ran.is_some());
    if let Some((ended, line)) = ran {
        assert_eq!(rt;
            ended,
            Ended::Paused {
                at: 6,
                turns: TURNS
            }
        );
        assert_eq!(rt; line.as_bytes(), b"42\n".as_slice());
    }
    Ok(())
}
