//! Each adapter beside its cipher, and figures of an independent program through generic code.
ghost use Rattle.std.specs.Prelude.{◌<◌};

use aegis_128::{aegis128l, aegis128x2, aegis128x4};
use aegis_256::{aegis256, aegis256x2, aegis256x4};
use aegis_aead::{
    Adapter, AeadCore, AeadInOut, Aegis128L, Aegis256X2, KeyInit, TagPosition,
    encrypt_checked_under,
};
use aegis_core::{Cipher, CipherKind, LaneState, SoftLanes128, SoftLanes256};
use std::process::Abort;

// Byte i is `step * i + first`, modulo 256.
fn stepped(out: &mut [u8], step: u8, first: u8) {
    let mut byte = first;
    for i in 0..out.len() {
        out[i] = byte;
        byte = byte.wrapping_add(step);
    }
}

// The AEAD seals the message of `is_its_cipher` to this text and tag, and refuses another tag.
fn answers<
    A: AeadInOut<Nonce = [u8; KEY_BYTES], Tag = [u8; TAG_BYTES]>,
    const KEY_BYTES: usize,
    const TAG_BYTES: usize,
>(rt: &impl Abort, aead: &A, nonce: &[u8; KEY_BYTES], text: &[u8; 70], expected: [u8; TAG_BYTES])
    requires { 0 < TAG_BYTES }
{
    let (mut sealed, mut opened) = ([0u8; 70], [0u8; 70]);
    let mut tag = aead
        .encrypt_inout_detached(nonce, b"ad", &[9; 70], &mut sealed)
        .unwrap();
    assert!(rt; sealed == *text && tag == expected);
    assert!(rt;
        aead.decrypt_inout_detached(nonce, b"ad", text, &mut opened, &tag)
            .is_ok()
    );
    assert!(rt; opened == [9; 70]);
    tag[0] ^= 1;
    assert!(rt;
        aead.decrypt_inout_detached(nonce, b"ad", text, &mut opened, &tag)
            .is_err()
    );
    assert!(rt; opened == [0xaa; 70]);
    assert!(rt; A::NONCE_SIZE == KEY_BYTES && A::TAG_SIZE == TAG_BYTES);
    assert!(rt; A::TAG_POSITION == TagPosition::Postfix);
}

// The adapters over this kind answer what its cipher answers, with both lengths of tags.
fn is_its_cipher<K: CipherKind<S, KEY_BYTES>, S: LaneState, const KEY_BYTES: usize>(
    rt: &impl Abort,
) {
    let (mut key, mut nonce) = ([0u8; KEY_BYTES], [0u8; KEY_BYTES]);
    stepped(&mut key, 13, 5);
    stepped(&mut nonce, 13, 11);
    let mut text = [9u8; 70];
    let cipher = Cipher::<K, S, KEY_BYTES, 16>::new(&key, &nonce);
    let tag = cipher.encrypt_in_place(&mut text, b"ad");
    answers(
        rt,
        &Adapter::<K, S, KEY_BYTES, 16>::new(&key),
        &nonce,
        &text,
        tag,
    );
    let mut text = [9u8; 70];
    let cipher = Cipher::<K, S, KEY_BYTES, 32>::new(&key, &nonce);
    let tag = cipher.encrypt_in_place(&mut text, b"ad");
    answers(
        rt,
        &Adapter::<K, S, KEY_BYTES, 32>::new(&key),
        &nonce,
        &text,
        tag,
    );
}

#[test]
fn each_adapter_is_its_cipher(rt: HostRuntime) {
    is_its_cipher::<aegis128l::Kind, SoftLanes128, 16>(&rt);
    is_its_cipher::<aegis128x2::Kind, SoftLanes128, 16>(&rt);
    is_its_cipher::<aegis128x4::Kind, SoftLanes128, 16>(&rt);
    is_its_cipher::<aegis256::Kind, SoftLanes256, 32>(&rt);
    is_its_cipher::<aegis256x2::Kind, SoftLanes256, 32>(&rt);
    is_its_cipher::<aegis256x4::Kind, SoftLanes256, 32>(&rt);
}

// One byte of message after five of associated data.
#[test]
fn figures_of_an_independent_program(rt: HostRuntime) {
    let (mut key, mut nonce, mut ad) = ([0u8; 32], [0u8; 32], [0u8; 5]);
    stepped(&mut key, 7, 3);
    stepped(&mut nonce, 11, 1);
    stepped(&mut ad, 5, 2);
    let (mut sealed, mut opened) = ([0u8; 1], [0u8; 1]);
    let tag = encrypt_checked_under::<Aegis256X2<32>>(
        &key,
        &nonce,
        &ad,
        &[9],
        &mut sealed,
        &mut opened,
    );
    assert!(rt; sealed == [0x42] && opened == [9]);
    assert!(rt;
        tag.unwrap()
            == [
                0xe3, 0x2c, 0xae, 0xd8, 0xa2, 0xa8, 0xe0, 0x8e, 0x83, 0xbc, 0x56, 0x1d, 0x63, 0x50,
                0x8b, 0xbb, 0x06, 0x39, 0x77, 0xef, 0x7c, 0x54, 0xd9, 0xbe, 0x1b, 0x02, 0x9d, 0x81,
                0xf8, 0x0c, 0xa9, 0x96,
            ]
    );
    let (mut key, mut nonce) = ([0u8; 16], [0u8; 16]);
    stepped(&mut key, 7, 3);
    stepped(&mut nonce, 11, 1);
    let tag = encrypt_checked_under::<Aegis128L<16>>(
        &key,
        &nonce,
        &ad,
        &[9],
        &mut sealed,
        &mut opened,
    );
    assert!(rt; sealed == [0x72] && opened == [9]);
    assert!(rt;
        tag.unwrap()
            == [
                0x88, 0xdd, 0xb0, 0x57, 0x4e, 0x5a, 0x7b, 0x12, 0x6b, 0x91, 0xb7, 0x4e, 0xff, 0xc1,
                0x9a, 0x18,
            ]
    );
}
