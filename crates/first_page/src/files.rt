//! Encrypted files: at a path, with a commitment and proofs, and by lists of commands.
use aegis::raf::{
    Aegis256, Command, Data, FileIo, MemIo, NoMerkle, OsRng, Raf, RafBuilder, Reply, Sha256Hasher,
    VecRng, Verdict, clash, session,
};
use raf_check::check_sha256;
use raf_proof::prove;
use rand_chacha::ChaCha20Rng;
use rand_core::SeedableRng;
use std::alloc::Global;
use std::fs;
use std::random::RandomSource;
use std::test::Fail;

#[test]
fn at_a_path(rt: HostRuntime) -> Result<(), Fail> {
    let (alloc, key, path) = (rt.alloc(), [7; 32], "first_page.raf");
    let mut seed = [0; 32];
    rt.fill_bytes(&mut seed)?;
    let rng = OsRng::new(ChaCha20Rng::from_seed(seed));
    let mut file = match Raf::<Aegis256, FileIo, _, NoMerkle>::create_file(
        &rt, alloc, path, &key, rng,
    ) {
        Ok(file) => file,
        Err(refused) => return Err(refused.error.into()),
    };
    file.write(b"entry", 1000)?;
    file.sync()?;
    let rng = file.close().rng;

    let mut file = match Raf::<Aegis256, FileIo, _, NoMerkle>::open_file(
        &rt, alloc, path, &key, rng,
    ) {
        Ok(file) => file,
        Err(refused) => return Err(refused.error.into()),
    };
    let mut entry = [0; 5];
    let n = file.read(&mut entry, 1000)?;
    assert!(rt; n == 5 && entry == *b"entry");
    fs::remove_file(&rt, path)?;
    Ok(())
}

#[test]
fn with_a_commitment(rt: HostRuntime) -> Result<(), Fail> {
    let (alloc, key) = (rt.alloc(), [7; 32]);
    let rng = VecRng::new(Vec::from_elem(alloc, 5, 64)?);
    let io = MemIo::new(alloc, Vec::new(alloc), Vec::new(alloc));
    let builder = RafBuilder::<Aegis256, _, NoMerkle>::new(rng).merkle(Sha256Hasher::new(), 1024);
    let mut file = match builder.create(alloc, io, &key) {
        Ok(file) => file,
        Err(refused) => return Err(refused.error.into()),
    };
    file.write(b"entry", 0)?;
    let mut commitment = [0; 32];
    file.merkle_commitment(&mut commitment)?;
    let damaged = file.merkle_verify()?;
    assert!(rt; damaged.is_none() && commitment != [0; 32]);
    Ok(())
}

type Committed = Raf<Aegis256, MemIo, VecRng, Sha256Hasher>;

// A new file with a tree, which holds one entry.
fn committed(alloc: Global, entry: &[u8]) -> Result<Committed, Fail> {
    let rng = VecRng::new(Vec::from_elem(alloc, 5, 256)?);
    let io = MemIo::new(alloc, Vec::new(alloc), Vec::new(alloc));
    let builder = RafBuilder::<Aegis256, _, NoMerkle>::new(rng).merkle(Sha256Hasher::new(), 1024);
    let mut file = match builder.create(alloc, io, &[7; 32]) {
        Ok(file) => file,
        Err(refused) => return Err(refused.error.into()),
    };
    file.write(entry, 0)?;
    Ok(file)
}

// What two holders of a commitment say to each other.
fn said(ours: &mut Committed, theirs: &mut Committed) -> Result<&'static str, Fail> {
    let said = match clash(ours, theirs)? {
        Verdict::Unequal => "we committed to different things",
        Verdict::Same => "we hold the same content",
        Verdict::Clash { a: _, b: _ } => "the hash function is broken, and here is where",
    };
    Ok(said)
}

#[test]
fn with_two_holders_of_a_commitment(rt: HostRuntime) -> Result<(), Fail> {
    let alloc = rt.alloc();
    let mut ours = committed(alloc, b"entry")?;
    let mut theirs = committed(alloc, b"entry")?;
    assert!(rt; said(&mut ours, &mut theirs)? == "we hold the same content");
    theirs.write(b"other", 0)?;
    assert!(rt; said(&mut ours, &mut theirs)? == "we committed to different things");
    Ok(())
}

#[test]
fn with_a_proof_for_a_client(rt: HostRuntime) -> Result<(), Fail> {
    let alloc = rt.alloc();
    let mut file = committed(alloc, b"entry")?;
    let mut commitment = [0; 32];
    file.merkle_commitment(&mut commitment)?;
    let Some(proof) = prove(alloc, &mut file, 0)? else {
        return Ok(());
    };
    let proof = proof.to_bytes(alloc)?;
    let is_in_the_file = check_sha256(&commitment, b"entry", &proof) == Some(true);
    assert!(rt; is_in_the_file && check_sha256(&commitment, b"other", &proof) == Some(false));
    Ok(())
}

#[test]
fn by_a_list_of_commands(rt: HostRuntime) -> Result<(), Fail> {
    let (alloc, key) = (rt.alloc(), [7; 32]);
    let rng = VecRng::new(Vec::from_elem(alloc, 5, 64)?);
    let io = MemIo::new(alloc, Vec::new(alloc), Vec::new(alloc));
    let (io, rng) = match RafBuilder::<Aegis256, _, NoMerkle>::new(rng).create(alloc, io, &key) {
        Ok(file) => {
            let parts = file.close();
            (parts.io, parts.rng)
        }
        Err(refused) => return Err(refused.error.into()),
    };
    let mut commands = Vec::new(alloc);
    commands.push(Command::Write {
        offset: 7,
        bytes: Data::from_vec(b"entry".to_vec(alloc)?),
    })?;
    commands.push(Command::Size)?;
    let end = session(
        alloc,
        RafBuilder::<Aegis256, _, NoMerkle>::new(rng),
        io,
        &key,
        &commands,
    );
    let replies = end.outcome?;
    assert!(rt; matches!(replies.get(0), Some(Reply::Wrote(5))));
    assert!(rt; matches!(replies.get(1), Some(Reply::Size(12))));
    Ok(())
}
