// Files and sinks, of the system and in memory.
use io_edge::{
    Entry, Failed, Files, MemFiles, MemSink, ReadRefusal, RealFiles, RealSink, fetch_file,
    write_all,
};
use std::alloc::Global;
use std::fs;
use std::test::Fail;

// Files in memory with one file, of which the second call fails.
fn one_file(alloc: Global) -> Result<MemFiles, Fail> {
    let entry = Entry {
        name: String::from_str(alloc, "a")?,
        bytes: b"abcd".to_vec(alloc)?,
    };
    let entries = vec![in alloc; entry]?;
    let failing = vec![in alloc; 2]?;
    Ok(MemFiles::new(alloc, entries, failing))
}

#[test]
fn files_of_the_system_are_read(rt: HostRuntime) -> Result<(), Fail> {
    fs::write(&rt, "qgm_tests_read.tmp", b"abcd")?;
    let mut files = RealFiles { rt: &rt, faults: 0 };
    let mut bytes = Vec::new(rt.alloc());
    let whole = files.read(rt.alloc(), "qgm_tests_read.tmp", 4, &mut bytes);
    assert_eq!(rt; whole, Ok(()));
    assert_eq!(rt; bytes.as_slice(), b"abcd".as_slice());
    let above = files.read(rt.alloc(), "qgm_tests_read.tmp", 3, &mut bytes);
    assert_eq!(rt; above, Err(ReadRefusal::TooLarge));
    assert_eq!(rt; files.faults, 0);
    fs::remove_file(&rt, "qgm_tests_read.tmp")?;
    let missing = files.read(rt.alloc(), "qgm_tests_read.tmp", 4, &mut bytes);
    assert_eq!(rt; missing, Err(ReadRefusal::Failed));
    assert_eq!(rt; files.faults, 1);
    Ok(())
}

#[test]
fn a_file_of_the_system_is_written(rt: HostRuntime) -> Result<(), Fail> {
    let mut out = RealSink {
        writer: fs::create(&rt, "qgm_tests_write.tmp")?,
        faults: 0,
    };
    assert_eq!(rt; write_all(&mut out, b"ab"), Ok(()));
    assert_eq!(rt; write_all(&mut out, b"cd"), Ok(()));
    assert_eq!(rt; out.faults, 0);
    let bytes = fs::read(&rt, "qgm_tests_write.tmp")?;
    fs::remove_file(&rt, "qgm_tests_write.tmp")?;
    assert_eq!(rt; bytes.as_slice(), b"abcd".as_slice());
    Ok(())
}

#[test]
fn reads_in_memory_fail_where_listed_or_missing(rt: HostRuntime) -> Result<(), Fail> {
    let mut files = one_file(rt.alloc())?;
    let mut bytes = Vec::new(rt.alloc());
    assert_eq!(rt; files.read(rt.alloc(), "a", 4, &mut bytes), Ok(()));
    assert_eq!(rt; bytes.as_slice(), b"abcd".as_slice());
    let listed = files.read(rt.alloc(), "a", 4, &mut bytes);
    assert_eq!(rt; listed, Err(ReadRefusal::Failed));
    let missing = files.read(rt.alloc(), "b", 4, &mut bytes);
    assert_eq!(rt; missing, Err(ReadRefusal::Failed));
    assert_eq!(rt; files.faults, 2);
    let whole = fetch_file(rt.alloc(), &mut files, "a", 4)?;
    assert!(rt; whole.is_some_and(|bytes| bytes.as_slice() == b"abcd".as_slice()));
    let over = fetch_file(rt.alloc(), &mut files, "a", 3)?;
    assert!(rt; over.is_none());
    Ok(())
}

#[test]
fn a_sink_in_memory_fails_after_its_room(rt: HostRuntime) -> Result<(), Fail> {
    let mut out = MemSink::new(rt.alloc(), 3)?;
    assert_eq!(rt; write_all(&mut out, b"abcde"), Err(Failed));
    assert_eq!(rt; out.bytes.as_slice(), b"abc".as_slice());
    assert_eq!(rt; out.faults, 1);
    Ok(())
}
