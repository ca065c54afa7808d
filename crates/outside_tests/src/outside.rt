// What no clause says: that a call succeeds, and what the real input, output and folder do. Expected
// values follow from the numbers of the calls by hand.
mod doubles;

use doubles::{ToldInput, ToldOutput};
use gl_outside::{
    Failed, FolderShelf, MemoryShelf, MemorySink, MemorySource, OutError, Shelf, Sink, Source,
    StdinSource, StdoutSink, SureShelf, SureSink, SureSource, read_up_to, write_all,
};
use std::alloc::Global;
use std::test::Fail;
use std::{env, fs, process, str};

/// Ten bytes, read by three, where the read with the row's number, from 0, fails: what the reading
/// gives, how many bytes are left, and the count of faults. Read 4 finds nothing; read 5 isn't made.
const READS: &str = "\
Err(Failed) 10 1
Err(Failed) 7 1
Err(Failed) 4 1
Err(Failed) 1 1
Err(Failed) 0 1
Ok(10) 0 0
";

/// What a row of such a table tells of a source.
fn told_of_reads(alloc: Global, fails: u64) -> Result<String, Fail> {
    let content = b"abcdefghij".to_vec(alloc)?;
    let mut source = MemorySource::new(content, vec![in alloc; fails]?, 3);
    let read = read_up_to(alloc, &mut source, 20).map(|bytes| bytes.len());
    let told = format!(in alloc; "{read:?} {} {}", source.rest().len(), source.faults())?;
    Ok(told)
}

#[test]
fn a_source_gives_all_its_bytes_until_a_chosen_read_fails(rt: HostRuntime) -> Result<(), Fail> {
    for (fails, row) in READS.lines().enumerate() {
        assert_eq!(rt;
            told_of_reads(rt.alloc(), fails as u64)?.as_str(),
            row,
            "read {fails} fails"
        );
    }
    Ok(())
}

#[test]
fn a_reading_stops_at_its_limit(rt: HostRuntime) -> Result<(), Fail> {
    let mut source = SureSource::new(vec![in rt.alloc(); 7u8; 20000]?);
    let bytes = read_up_to(rt.alloc(), &mut source, 19999)?;
    assert_eq!(rt; bytes.len(), 19999);
    assert_eq!(rt; source.rest(), [7u8].as_slice());
    let mut buffer = [0u8; 4];
    assert_eq!(rt; source.read(&mut buffer), Ok(1));
    assert_eq!(rt; source.read(&mut buffer), Ok(0));
    Ok(())
}

/// Ten bytes, written by four, where the write with the row's number, from 0, fails: the answer, the
/// count of faults, and what is held. Write 3 isn't made.
const WRITES: &str = "\
Err(Failed) 1 Ok(\"\")
Err(Failed) 1 Ok(\"abcd\")
Err(Failed) 1 Ok(\"abcdefgh\")
Ok(()) 0 Ok(\"abcdefghij\")
";

/// What a row of such a table tells of a sink.
fn told_of_writes(alloc: Global, fails: u64) -> Result<String, Fail> {
    let mut sink = MemorySink::new(alloc, vec![in alloc; fails]?, 4);
    let answer = write_all(&mut sink, b"abcdefghij");
    let held = str::from_utf8(sink.bytes());
    let told = format!(in alloc; "{answer:?} {} {held:?}", sink.faults())?;
    Ok(told)
}

#[test]
fn a_sink_holds_what_was_written_before_a_chosen_write_fails(rt: HostRuntime) -> Result<(), Fail> {
    for (fails, row) in WRITES.lines().enumerate() {
        assert_eq!(rt;
            told_of_writes(rt.alloc(), fails as u64)?.as_str(),
            row,
            "write {fails} fails"
        );
    }
    let mut sink = SureSink::new(rt.alloc());
    write_all(&mut sink, b"abc")?;
    assert_eq!(rt; sink.bytes(), b"abc".as_slice());
    Ok(())
}

/// Three puts, of one, two and three bytes, of which the one with the row's number, from 0, fails: the
/// answers, the count of faults, how many files stand, and the last of them. Put 3 isn't made.
const PUTS: &str = "\
Err(Failed) Ok(()) Ok(()) 1 2 c Ok(\"333\")
Ok(()) Err(Failed) Ok(()) 1 2 c Ok(\"333\")
Ok(()) Ok(()) Err(Failed) 1 2 b Ok(\"22\")
Ok(()) Ok(()) Ok(()) 0 3 c Ok(\"333\")
";

/// The answers of three puts.
fn put_three<G: Shelf>(alloc: Global, shelf: &mut G) -> Result<String, Fail> {
    let first = shelf.put("a", b"1");
    let second = shelf.put("b", b"22");
    let third = shelf.put("c", b"333");
    let told = format!(in alloc; "{first:?} {second:?} {third:?}")?;
    Ok(told)
}

/// What a row of such a table tells of a shelf.
fn told_of_puts(alloc: Global, fails: u64) -> Result<String, Fail> {
    let mut shelf = MemoryShelf::new(alloc, vec![in alloc; fails]?);
    let empty = shelf.is_empty();
    let answers = put_three(alloc, &mut shelf)?;
    let count = shelf.len();
    if !empty || count == 0 {
        return Err(Fail::new("empty too late, or not at first"));
    }
    let (name, bytes) = (shelf.name_at(count - 1), shelf.bytes_at(count - 1));
    let faults = shelf.faults();
    let told = format!(in alloc;
        "{answers} {faults} {count} {name} {:?}",
        str::from_utf8(bytes)
    )?;
    Ok(told)
}

#[test]
fn a_shelf_keeps_the_files_whose_puts_did_not_fail(rt: HostRuntime) -> Result<(), Fail> {
    for (fails, row) in PUTS.lines().enumerate() {
        assert_eq!(rt;
            told_of_puts(rt.alloc(), fails as u64)?.as_str(),
            row,
            "put {fails} fails"
        );
    }
    Ok(())
}

#[test]
fn a_sure_shelf_keeps_all_files(rt: HostRuntime) -> Result<(), Fail> {
    let mut shelf = SureShelf::new(rt.alloc());
    assert!(rt; shelf.is_empty());
    assert_eq!(rt;
        put_three(rt.alloc(), &mut shelf)?.as_str(),
        "Ok(()) Ok(()) Ok(())"
    );
    assert_eq!(rt; shelf.len(), 3);
    assert_eq!(rt; shelf.name_at(1), "b");
    assert_eq!(rt; shelf.bytes_at(1), b"22".as_slice());
    Ok(())
}

#[test]
fn standard_input_is_read_to_its_end(rt: HostRuntime) -> Result<(), Fail> {
    let mut source = StdinSource::new(&rt);
    let bytes = read_up_to(rt.alloc(), &mut source, 1 << 20)?;
    assert!(rt; bytes.len() < 1 << 20);
    let mut buffer = [0u8; 16];
    assert_eq!(rt; source.read(&mut buffer), Ok::<usize, Failed>(0));
    Ok(())
}

#[test]
fn standard_output_takes_a_large_write(rt: HostRuntime) -> Result<(), Fail> {
    let spaces = vec![in rt.alloc(); b' '; 100_000]?;
    let mut sink = StdoutSink::new(&rt);
    assert_eq!(rt; write_all(&mut sink, &spaces), Ok(()));
    assert_eq!(rt; sink.write(b""), Ok(0));
    Ok(())
}

/// The answers of an input, and what is read from it: a call that a signal interrupts is made again,
/// and no other.
const INPUTS: &str = "\
3i2 Ok([97, 98, 99, 100, 101])
i1ii1i Ok([97, 98])
2f1 Err(Failed)
2w1 Err(Failed)
if Err(Failed)
";

#[test]
fn a_read_that_is_interrupted_is_made_again(rt: HostRuntime) -> Result<(), Fail> {
    for row in INPUTS.lines() {
        let (answers, wanted) = row.split_once(' ').unwrap_or((row, ""));
        let mut source = StdinSource::new(&ToldInput(answers));
        let read = read_up_to(rt.alloc(), &mut source, 100);
        assert_eq!(rt;
            format!(in rt.alloc(); "{read:?}")?.as_str(),
            wanted,
            "at {row}"
        );
    }
    Ok(())
}

/// The answers of an output to which eight bytes are written, and what the writing answers and the
/// output holds: a call that a signal interrupts is made again, and no other.
const OUTPUTS: &str = "\
3i5 Ok(()) Ok(\"abcdefgh\")
i1ii9 Ok(()) Ok(\"abcdefgh\")
2f8 Err(Failed) Ok(\"ab\")
2w8 Err(Failed) Ok(\"ab\")
30 Err(Failed) Ok(\"abc\")
";

/// What a row of such a table tells of an output.
fn told_of_output(alloc: Global, answers: &'static str) -> Result<String, Fail> {
    let output = ToldOutput::new(alloc, answers);
    let answer = write_all(&mut StdoutSink::new(&output), b"abcdefgh");
    let held = output.into_held();
    let told = format!(in alloc; "{answer:?} {:?}", str::from_utf8(&held))?;
    Ok(told)
}

#[test]
fn a_write_that_is_interrupted_is_made_again(rt: HostRuntime) -> Result<(), Fail> {
    for row in OUTPUTS.lines() {
        let (answers, wanted) = row.split_once(' ').unwrap_or((row, ""));
        assert_eq!(rt;
            told_of_output(rt.alloc(), answers)?.as_str(),
            wanted,
            "at {row}"
        );
    }
    Ok(())
}

/// Names of files, each of which is also what is put there. The last two are of the longest that a
/// script may name, and differ in one letter.
const NAMES: &str = "\
frame-0.ppm
image-abcdefghijklmnopqrstuvwxyz-_0123.ppm
image-abcdefghijklmnopqrstuvwxyz-_0124.ppm
";

#[test]
fn a_put_in_a_folder_replaces_the_file_of_that_name(rt: HostRuntime) -> Result<(), Fail> {
    let number = process::id(rt.process());
    let folder = format!(in rt.alloc(); "{}/gl_outside-{number}", env::temp_dir(&rt)?.display())?;
    let mut shelf = FolderShelf::new(&rt, rt.alloc(), folder.clone()?);
    assert_eq!(rt;
        shelf.put("frame-0.ppm", b"no folder yet"),
        Err(OutError::Failed)
    );
    fs::create_dir(&rt, &folder)?;
    assert_eq!(rt; shelf.put("frame-0.ppm", b"the first and longer"), Ok(()));
    for name in NAMES.lines() {
        assert_eq!(rt; shelf.put(name, name.as_bytes()), Ok(()), "at {name}");
    }
    for name in NAMES.lines() {
        let path = format!(in rt.alloc(); "{folder}/{name}")?;
        assert_eq!(rt; fs::read_to_string(&rt, &path)?.as_str(), name);
    }
    fs::remove_dir_all(&rt, &folder)?;
    Ok(())
}
