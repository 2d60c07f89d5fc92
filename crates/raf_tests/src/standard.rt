//! std's traits over the cursor.
use crate::given::empty_file;
use aegis::raf::{ErrorKind, RafIo, Reason};
use std::io;
use std::io::{Read, Seek, SeekFrom, Write};
use std::test::Fail;

#[test]
fn what_is_written_is_read_to_the_end(rt: HostRuntime) -> Result<(), Fail> {
    let alloc = rt.alloc();
    let mut file = empty_file(alloc, 160)?;
    let mut cursor = file.cursor();
    cursor.write_all(b"the first line\nand the second, which is longer\n")?;
    Write::flush(&mut cursor)?;
    assert!(rt; Seek::seek(&mut cursor, SeekFrom::End(-7))? == 40);
    let mut text = Vec::new(alloc);
    assert!(rt; cursor.read_to_end(&mut text)? == 7);
    assert!(rt; text.as_slice() == b"longer\n".as_slice());
    assert!(rt; Seek::seek(&mut cursor, SeekFrom::Start(4))? == 4);
    assert!(rt; Seek::seek(&mut cursor, SeekFrom::Current(11))? == 15);
    let mut word = [0u8; 14];
    cursor.read_exact(&mut word)?;
    assert!(rt; word == *b"and the second");
    assert!(rt; cursor.last_error().is_none());
    Ok(())
}

#[test]
fn an_error_of_std_has_its_kind_and_the_cursor_tells_more(rt: HostRuntime) -> Result<(), Fail> {
    let alloc = rt.alloc();
    let mut file = empty_file(alloc, 32)?;
    file.write(b"sixteen bytes...and four", 0)?;
    // Record 0 is damaged.
    file.storage_mut().write_at(&[0u8; 3], 120)?;
    let mut cursor = file.cursor();
    match Seek::seek(&mut cursor, SeekFrom::Current(-1)) {
        Ok(_) => assert!(rt; false, "a seek below 0"),
        Err(error) => assert!(rt; error.kind() == io::ErrorKind::InvalidInput),
    }
    assert!(rt; cursor.last_error() == Some(ErrorKind::InvalidArgument(Reason::SeekOverflow)));
    let mut buf = [0u8; 4];
    match Read::read(&mut cursor, &mut buf) {
        Ok(_) => assert!(rt; false, "a read of a damaged chunk"),
        Err(error) => assert!(rt; error.kind() == io::ErrorKind::Other),
    }
    assert!(rt; cursor.last_error() == Some(ErrorKind::AuthenticationFailed));
    match Write::write(&mut cursor, b"more") {
        Ok(_) => assert!(rt; false, "a write into a damaged chunk"),
        Err(error) => assert!(rt; error.kind() == io::ErrorKind::Other),
    }
    assert!(rt; Seek::seek(&mut cursor, SeekFrom::Current(0))? == 0);
    Ok(())
}
