//! Messages: in one call, in pieces, authenticated alone, through the AEAD traits, as a stream of messages.
use crate::generic::seal_note;
use aegis::Error;
use aegis::aegis128l::{Aegis128L, Aegis128LMac};
use aegis::aegis256::Aegis256;
use aegis::compat::rustcrypto_traits_06::Aegis128L as Aead128L;
use aegis_stream::{Opener, Sealer};
use std::test::Fail;

#[test]
fn in_one_call(rt: HostRuntime) -> Result<(), Fail> {
    let (alloc, key, nonce) = (rt.alloc(), [7; 16], [9; 16]);
    let cipher = Aegis128L::<16>::new(&key, &nonce);
    let (ciphertext, tag) = cipher.encrypt(alloc, b"hello", b"metadata")?;
    let plaintext = cipher.decrypt(alloc, &ciphertext, &tag, b"metadata")?;
    assert!(rt; plaintext.as_slice() == b"hello".as_slice());
    Ok(())
}

#[test]
fn in_pieces(rt: HostRuntime) -> Result<(), Fail> {
    let (key, nonce) = ([7; 32], [9; 32]);
    let (mut hello, mut world, mut plaintext) = (*b"hello ", *b"world", [0; 11]);
    let cipher = Aegis256::<32>::new(&key, &nonce);
    let mut encryptor = cipher.encryptor(b"metadata");
    encryptor.update_in_place(&mut hello);
    encryptor.update_in_place(&mut world);
    let tag = encryptor.finalize();

    let mut decryptor = cipher.decryptor(b"metadata", &mut plaintext);
    decryptor.update(&hello)?;
    decryptor.update(&world)?;
    let message = decryptor.finalize(&tag)?;
    assert!(rt; &*message == b"hello world".as_slice());
    Ok(())
}

#[test]
fn authenticated_alone(rt: HostRuntime) -> Result<(), Fail> {
    let key = [7; 16];
    let mut mac = Aegis128LMac::<32>::new(&key);
    mac.update(b"hello ");
    mac.update(b"world");
    let tag = mac.finalize_and_reset();
    mac.update(b"hello world");
    mac.verify(&tag)?;
    assert!(rt; tag != [0; 32]);
    Ok(())
}

#[test]
fn through_the_traits(rt: HostRuntime) -> Result<(), Fail> {
    let (alloc, key, nonce) = (rt.alloc(), [7; 16], [9; 16]);
    let (note, mut sealed) = (b"hello", [0; 5]);
    let cipher = Aegis128L::<16>::new(&key, &nonce);
    let (ciphertext, wanted) = cipher.encrypt(alloc, note, b"")?;
    let tag = match seal_note::<Aead128L<16>>(&key, &nonce, note, &mut sealed) {
        Ok(tag) => tag,
        Err(_) => return Err(Fail::new("refused")),
    };
    assert!(rt; tag == wanted);
    assert!(rt; sealed.as_slice() == ciphertext.as_slice());
    Ok(())
}

#[test]
fn as_a_stream_of_messages(rt: HostRuntime) -> Result<(), Fail> {
    let (alloc, key, prefix) = (rt.alloc(), [7; 16], [1; 8]);
    let (mut frame, mut message) = ([0; 65557], [0; 65536]);
    let mut sealer = Sealer::new(&key, &prefix);
    let written = sealer.seal(b"a message", true, &mut frame)?;

    let mut opener = Opener::new(alloc, &key)?;
    opener.feed(&prefix, &mut message)?;
    let fed = opener.feed(&frame[..written], &mut message)?;
    assert!(rt; fed.ended && fed.written == 9);
    assert!(rt; message.starts_with(b"a message"));
    Ok(())
}
