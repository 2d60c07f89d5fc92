//! Encrypted files at paths of the host.
use crate::given::source_of;
use aegis::raf::{
    Aegis256, Error, ErrorKind, FileIo, NoMerkle, PathError, Raf, RafIo, RafRng, Reason, VecRng,
};
use std::alloc::Global;
use std::fs;
use std::test::Fail;

/// What a refusal at a path told, how long the file is that came back, if one did, and whether the source gives five bytes more.
#[derive(Drop)]
struct Left {
    kind: ErrorKind,
    size: Option<u64>,
    gives: bool,
}

fn left_of<R: RafRng>(refused: PathError<R>) -> Left {
    let PathError { error, io, mut rng } = refused;
    let size = match io {
        Some(mut io) => io.get_size().ok(),
        None => None,
    };
    Left {
        kind: error.kind(),
        size,
        gives: rng.fill(&mut [0u8; 5]).is_ok(),
    }
}

// A call on an open file was refused.
fn refused(error: Error) -> Left {
    Left {
        kind: error.kind(),
        size: None,
        gives: false,
    }
}

// Makes a file of this text at a path.
fn make<R: RafRng>(
    rt: &HostRuntime,
    alloc: Global,
    path: &str,
    key: &[u8; 32],
    rng: R,
    text: &[u8],
) -> Result<u64, Left> {
    match Raf::<Aegis256, FileIo, R, NoMerkle>::create_file(rt, alloc, path, key, rng) {
        Ok(mut file) => {
            if let Err(error) = file.write(text, 0) {
                return Err(refused(error));
            }
            if let Err(error) = file.sync() {
                return Err(refused(error));
            }
            Ok(file.size())
        }
        Err(error) => Err(left_of(error)),
    }
}

// Opens the file at a path, and reads its front: how many bytes that is.
fn read<R: RafRng>(
    rt: &HostRuntime,
    alloc: Global,
    path: &str,
    key: &[u8; 32],
    rng: R,
    text: &mut [u8],
) -> Result<usize, Left> {
    match Raf::<Aegis256, FileIo, R, NoMerkle>::open_file(rt, alloc, path, key, rng) {
        Ok(mut file) => match file.read(text, 0) {
            Ok(count) => Ok(count),
            Err(error) => Err(refused(error)),
        },
        Err(error) => Err(left_of(error)),
    }
}

#[test]
fn a_file_is_made_and_opened_again(rt: HostRuntime) -> Result<(), Fail> {
    let alloc = rt.alloc();
    let path = "hello.raf";
    let key = Raf::<Aegis256, FileIo, VecRng, NoMerkle>::derive_master_key(
        &[0u8; 32],
        b"my-app/files",
    )?;
    match make(&rt, alloc, path, &key, source_of(64), b"hello world") {
        Ok(size) => assert!(rt; size == 11),
        Err(_) => assert!(rt; false, "a file is made"),
    }
    assert!(rt; fs::read(&rt, path)?.len() == 155);
    let mut text = [0u8; 12];
    match read(&rt, alloc, path, &key, source_of(0), &mut text) {
        Ok(count) => assert!(rt; count == 11 && text == *b"hello world\0"),
        Err(_) => assert!(rt; false, "a file is opened"),
    }
    // A new file takes the place of the old one.
    assert!(rt; make(&rt, alloc, path, &key, source_of(32), b"").is_ok());
    assert!(rt; fs::read(&rt, path)?.len() == 96);
    fs::remove_file(&rt, path)?;
    Ok(())
}

#[test]
fn a_path_without_a_file_is_told(rt: HostRuntime) -> Result<(), Fail> {
    let alloc = rt.alloc();
    fs::create_dir(&rt, "folder.raf")?;
    let rows = [
        ("missing.raf", ErrorKind::NotFound),
        ("no/such/folder.raf", ErrorKind::NotFound),
        ("folder.raf", ErrorKind::Io),
    ];
    for (path, kind) in &rows {
        match read(&rt, alloc, path, &[0u8; 32], source_of(5), &mut []) {
            Ok(_) => assert!(rt; false, "no file"),
            Err(left) => assert!(rt; left.kind == *kind && left.size.is_none() && left.gives),
        }
    }
    for (path, kind) in rows.get(1..).unwrap_or(&[]) {
        match make(&rt, alloc, path, &[0u8; 32], source_of(5), b"") {
            Ok(_) => assert!(rt; false, "no file"),
            Err(left) => assert!(rt; left.kind == *kind && left.size.is_none() && left.gives),
        }
    }
    fs::remove_dir(&rt, "folder.raf")?;
    Ok(())
}

#[test]
fn what_was_opened_comes_back_with_a_refusal(rt: HostRuntime) -> Result<(), Fail> {
    let alloc = rt.alloc();
    let path = "sealed.raf";
    assert!(rt; make(&rt, alloc, path, &[1u8; 32], source_of(32), b"").is_ok());
    match read(&rt, alloc, path, &[2u8; 32], source_of(5), &mut []) {
        Ok(_) => assert!(rt; false, "another key"),
        Err(left) => {
            assert!(rt; left.kind == ErrorKind::AuthenticationFailed);
            assert!(rt; left.size == Some(96) && left.gives);
        }
    }
    fs::write(&rt, path, b"no header")?;
    match read(&rt, alloc, path, &[1u8; 32], source_of(0), &mut []) {
        Ok(_) => assert!(rt; false, "no header"),
        Err(left) => {
            assert!(rt; left.kind == ErrorKind::InvalidArgument(Reason::Header));
            assert!(rt; left.size == Some(9) && !left.gives);
        }
    }
    // No byte is written before there is an id.
    match make(&rt, alloc, path, &[1u8; 32], source_of(31), b"") {
        Ok(_) => assert!(rt; false, "a source with too few bytes"),
        Err(left) => assert!(rt; left.kind == ErrorKind::Rng && left.size == Some(9)),
    }
    assert!(rt; fs::read(&rt, path)?.as_slice() == b"no header".as_slice());
    fs::remove_file(&rt, path)?;
    Ok(())
}

#[test]
fn a_file_of_the_host_is_a_storage(rt: HostRuntime) -> Result<(), Fail> {
    let path = "storage.raf";
    let mut io = FileIo::create(&rt, path)?;
    io.write_at(&[1, 2, 3, 4], 4)?;
    io.sync()?;
    // Each call seeks first.
    io.write_at(&[9], 0)?;
    let mut buf = [0u8; 5];
    io.read_at(&mut buf, 3)?;
    assert!(rt; buf == [0, 1, 2, 3, 4]);
    io.set_size(6)?;
    assert!(rt; io.get_size()? == 6);
    // A range that passes the end is an error and no shorter read.
    assert!(rt; io.read_at(&mut buf, 3).is_err());
    // What is there stays when the file is made again.
    let mut again = FileIo::create(&rt, path)?;
    let mut first = [0u8; 1];
    again.read_at(&mut first, 0)?;
    assert!(rt; first == [9]);
    fs::remove_file(&rt, path)?;
    Ok(())
}

#[test]
fn a_source_hands_on_what_it_is_given_and_fails_where_it_does(rt: HostRuntime) {
    let mut source = source_of(5);
    let mut buf = [0u8; 4];
    assert!(rt; source.fill(&mut buf).is_ok());
    assert!(rt; buf == [9, 9, 9, 9]);
    match source.fill(&mut buf) {
        Ok(()) => assert!(rt; false, "a dry source"),
        Err(error) => assert!(rt; error.kind() == ErrorKind::Rng),
    }
}
