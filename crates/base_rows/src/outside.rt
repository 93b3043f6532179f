//! The traits of the outside, over memory and over the system: a file, standard input, output and error.
use dc_outer::{
    BytesIn, BytesInSure, BytesOut, BytesOutSure, DiskFiles, Failed, FileFault, Files,
    FilesInMemory, FilesSure, Gate, OpenGate, Sink, Source, StdError, StdInput, StdOutput,
};
use dc_text::{DcList, DcText, NoMemory};
use std::alloc::Global;
use std::fs;
use std::test::Fail;

fn fill(source: &mut impl Source, buffer: &mut [u8; 4]) -> Result<usize, Failed> {
    source.read(buffer)
}

fn send(sink: &mut impl Sink) -> Result<usize, Failed> {
    sink.write(b"end\n")
}

fn fetch(
    files: &mut impl Files,
    alloc: Global,
    name: &[u8],
    limit: usize,
) -> Result<Vec<u8>, FileFault> {
    files.read(alloc, &DcText::from_bytes(alloc, name)?, limit)
}

fn pass(gate: &impl Gate) {
    gate.enter(0, 1);
}

fn numbers(alloc: Global, all: &[u64]) -> Result<DcList<u64>, NoMemory> {
    let items = Vec::from_slice(alloc, all)?;
    Ok(DcList::from_vec(items))
}

fn two_pairs(alloc: Global) -> Result<DcList<(DcText, DcText)>, NoMemory> {
    let mut pairs = DcList::new(alloc);
    pairs.push((
        DcText::from_bytes(alloc, b"a")?,
        DcText::from_bytes(alloc, b"first")?,
    ))?;
    pairs.push((
        DcText::from_bytes(alloc, b"a")?,
        DcText::from_bytes(alloc, b"second")?,
    ))?;
    Ok(pairs)
}

#[test]
fn sources_in_memory(rt: HostRuntime) -> Result<(), Fail> {
    let bytes = DcText::from_bytes(rt.alloc(), b"abcde")?;
    let mut buffer = [0; 4];
    let mut source = BytesIn::new(bytes.copy(rt.alloc())?, 3, numbers(rt.alloc(), &[1])?);
    assert_eq!(rt; fill(&mut source, &mut buffer), Ok(3));
    assert_eq!(rt; buffer, *b"abc\0");
    assert_eq!(rt; fill(&mut source, &mut buffer), Err(Failed));
    assert_eq!(rt; fill(&mut source, &mut buffer), Ok(2));
    assert_eq!(rt; buffer, *b"dec\0");
    assert_eq!(rt; fill(&mut source, &mut buffer), Ok(0));
    let mut sure = BytesInSure::new(bytes, 9);
    assert_eq!(rt; fill(&mut sure, &mut buffer), Ok(4));
    assert_eq!(rt; fill(&mut sure, &mut buffer), Ok(1));
    assert_eq!(rt; buffer, *b"ebcd");
    Ok(())
}

#[test]
fn sinks_in_memory(rt: HostRuntime) -> Result<(), Fail> {
    let mut sink = BytesOut::new(rt.alloc(), 5, 3, numbers(rt.alloc(), &[1])?)?;
    assert_eq!(rt; send(&mut sink), Ok(3));
    assert_eq!(rt; send(&mut sink), Err(Failed));
    assert_eq!(rt; send(&mut sink), Ok(2));
    assert_eq!(rt; send(&mut sink), Err(Failed));
    assert_eq!(rt; sink.as_bytes(), b"enden".as_slice());
    let mut sure = BytesOutSure::new(rt.alloc(), 6, 9)?;
    assert_eq!(rt; send(&mut sure), Ok(4));
    assert_eq!(rt; send(&mut sure), Ok(2));
    assert_eq!(rt; send(&mut sure), Err(Failed));
    assert_eq!(rt; sure.as_bytes(), b"end\nen".as_slice());
    Ok(())
}

#[test]
fn files_in_memory(rt: HostRuntime) -> Result<(), Fail> {
    let failing = numbers(rt.alloc(), &[1])?;
    let mut files = FilesInMemory::new(two_pairs(rt.alloc())?, failing);
    let whole = fetch(&mut files, rt.alloc(), b"a", 4)?;
    assert_eq!(rt; whole.as_slice(), b"first".as_slice());
    let listed = fetch(&mut files, rt.alloc(), b"a", 4).err();
    assert_eq!(rt; listed, Some(FileFault::Failed));
    let front = fetch(&mut files, rt.alloc(), b"a", 2)?;
    assert_eq!(rt; front.as_slice(), b"fir".as_slice());
    let not_held = fetch(&mut files, rt.alloc(), b"b", 4).err();
    assert_eq!(rt; not_held, Some(FileFault::Failed));
    let mut sure = FilesSure::new(two_pairs(rt.alloc())?);
    let whole = fetch(&mut sure, rt.alloc(), b"a", 4)?;
    assert_eq!(rt; whole.as_slice(), b"first".as_slice());
    assert!(rt; fetch(&mut sure, rt.alloc(), b"b", 4)?.is_empty());
    Ok(())
}

#[test]
fn files_on_disk(rt: HostRuntime) -> Result<(), Fail> {
    fs::write(&rt, "program.f90", b"end program")?;
    let mut files = DiskFiles::new(rt);
    let whole = fetch(&mut files, rt.alloc(), b"program.f90", 11)?;
    assert_eq!(rt; whole.as_slice(), b"end program".as_slice());
    let front = fetch(&mut files, rt.alloc(), b"program.f90", 2)?;
    assert_eq!(rt; front.as_slice(), b"end".as_slice());
    fs::remove_file(&rt, "program.f90")?;
    let absent = fetch(&mut files, rt.alloc(), b"program.f90", 2).err();
    assert_eq!(rt; absent, Some(FileFault::Failed));
    let no_text = fetch(&mut files, rt.alloc(), b"\xff", 2).err();
    assert_eq!(rt; no_text, Some(FileFault::Failed));
    Ok(())
}

#[test]
fn standard_streams(rt: HostRuntime) -> Result<(), Fail> {
    let mut buffer = [0; 4];
    assert!(rt; fill(&mut StdInput::new(rt.stdin()), &mut buffer).is_ok());
    assert_eq!(rt; send(&mut StdOutput::new(rt.stdout())), Ok(4));
    assert_eq!(rt; send(&mut StdError::new(rt.stderr())), Ok(4));
    pass(&OpenGate);
    Ok(())
}
