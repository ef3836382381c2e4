use fst_base::{Name, OutOfMemory, Seq};
use fst_outside::{
    Fail, FetchFault, File, FolderShelf, MemoryShelf, MemorySink, OutSink, PutFault, Shelf, Sink,
    SteadyShelf, SteadySink,
};
use std::alloc::Global;
use std::fs;
use std::test::Fail as Failure;

fn one_file(alloc: Global) -> Result<Seq<File>, OutOfMemory> {
    let mut files = Seq::new(alloc);
    files.push(File {
        name: Name::new(alloc, "a.fst")?,
        bytes: Seq::from_slice(alloc, b"fun")?,
    })?;
    Ok(files)
}

// What a shelf gives of a file of three bytes and of one that is not there, and with too small a limit.
fn fetches<S: Shelf>(alloc: Global, shelf: &mut S) -> [Result<usize, FetchFault>; 3] {
    [
        shelf.fetch(alloc, "a.fst", 3).map(|bytes| bytes.len()),
        shelf.fetch(alloc, "b.fst", 3).map(|bytes| bytes.len()),
        shelf.fetch(alloc, "a.fst", 2).map(|bytes| bytes.len()),
    ]
}

fn puts<K: Sink>(sink: &mut K) -> [Result<(), PutFault>; 3] {
    [sink.put(b"one "), sink.put(b"two "), sink.put(b"three")]
}

#[test]
fn a_memory_shelf_holds_files(rt: HostRuntime) -> Result<(), Failure> {
    let alloc = rt.alloc();
    let mut shelf = MemoryShelf::new(alloc, one_file(alloc)?, Seq::from_slice(alloc, &[3])?);
    let failed = Err(FetchFault::Failed);
    assert_eq!(rt;
        fetches(alloc, &mut shelf),
        [Ok(3), failed, Err(FetchFault::TooLong)]
    );
    assert_eq!(rt;
        fetches(alloc, &mut shelf),
        [failed, failed, Err(FetchFault::TooLong)]
    );
    Ok(())
}

#[test]
fn a_steady_shelf_never_fails(rt: HostRuntime) -> Result<(), Failure> {
    let alloc = rt.alloc();
    let mut shelf = SteadyShelf::new(alloc, one_file(alloc)?);
    assert_eq!(rt;
        fetches(alloc, &mut shelf),
        [Ok(3), Ok(0), Err(FetchFault::TooLong)]
    );
    Ok(())
}

#[test]
fn a_memory_sink_keeps_the_text(rt: HostRuntime) -> Result<(), Failure> {
    let alloc = rt.alloc();
    let fail = Fail { call: 1, kept: 2 };
    let mut sink = MemorySink::new(alloc, Seq::from_slice(alloc, &[fail])?);
    assert_eq!(rt; puts(&mut sink), [Ok(()), Err(PutFault::Failed), Ok(())]);
    assert_eq!(rt; sink.written().as_slice(), b"one twthree".as_slice());
    Ok(())
}

#[test]
fn a_steady_sink_never_fails(rt: HostRuntime) {
    let mut sink = SteadySink::new(rt.alloc());
    assert_eq!(rt; puts(&mut sink), [Ok(()); 3]);
}

#[test]
fn a_folder_shelf_reads_files(rt: HostRuntime) -> Result<(), Failure> {
    fs::write(&rt, "a.fst", "fun")?;
    let alloc = rt.alloc();
    let mut shelf = FolderShelf::new(alloc, &rt);
    let bytes = shelf.fetch(alloc, "a.fst", 3).unwrap_or(Seq::new(alloc));
    assert_eq!(rt; bytes.as_slice(), b"fun".as_slice());
    assert_eq!(rt;
        fetches(alloc, &mut shelf),
        [Ok(3), Err(FetchFault::Failed), Err(FetchFault::TooLong)]
    );
    Ok(())
}

#[test]
fn an_out_sink_prints(rt: HostRuntime) {
    assert_eq!(rt; puts(&mut OutSink::new(&rt)), [Ok(()); 3]);
}
