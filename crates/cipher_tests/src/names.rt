//! The debug texts of each cipher and of its pieces.

use aegis_128::{aegis128l, aegis128x2, aegis128x4};
use aegis_256::{aegis256, aegis256x2, aegis256x4};
use aegis_core::{
    Cipher, CipherKind, Decryptor, Encryptor, LaneState, Mac, SoftLanes128, SoftLanes256,
};
use std::alloc::Global;
use std::fmt::Debug;
use std::process::Abort;
use std::test::Fail;

// The value has this debug text.
fn shows_as<T: Debug>(rt: &impl Abort, alloc: Global, value: &T, text: &str) -> Result<(), Fail> {
    assert_eq!(rt; format!(in alloc; "{value:?}")?.as_str(), text);
    Ok(())
}

// A cipher, its encryptor, decryptor and MAC have these texts. With the types of all three in its signature, of which
// none is handed in, the function knows that they fit in memory, and makes them.
fn show<K: CipherKind<S, KEY_BYTES>, S: LaneState, const KEY_BYTES: usize>(
    rt: &impl Abort,
    alloc: Global,
    names: [&str; 4],
    _encryptor: Option<Encryptor<K, S, KEY_BYTES, 16>>,
    _decryptor: Option<Decryptor<'_, K, S, KEY_BYTES, 16>>,
    _mac: Option<Mac<K, S, KEY_BYTES, 16>>,
) -> Result<(), Fail> {
    let cipher = Cipher::<K, S, KEY_BYTES, 16>::new(&[5; KEY_BYTES], &[6; KEY_BYTES]);
    shows_as(rt, alloc, &cipher, names[0])?;
    shows_as(rt, alloc, &cipher.encryptor(b"ad"), names[1])?;
    let mut room = [0xff; 13];
    shows_as(rt, alloc, &cipher.decryptor(b"ad", &mut room), names[2])?;
    let mac = Mac::<K, S, KEY_BYTES, 16>::new(&[5; KEY_BYTES]);
    shows_as(rt, alloc, &mac, names[3])
}

// One cipher, by the names of its module.
macro_rules! show {
    ($rt:ident, $module:ident, $lanes:ident, $key_bytes:literal, $mac:ident, $names:expr) => {
        show::<$module::Kind, $lanes, $key_bytes>(
            &$rt,
            $rt.alloc(),
            $names,
            None::<$module::Encryptor<16>>,
            None::<$module::Decryptor<'_, 16>>,
            None::<$module::$mac<16>>,
        )
    };
}

#[test]
fn each_type_shows_its_name(rt: HostRuntime) -> Result<(), Fail> {
    show!(
        rt,
        aegis128l,
        SoftLanes128,
        16,
        Aegis128LMac,
        [
            "Aegis128L { .. }",
            "aegis128l::Encryptor { .. }",
            "aegis128l::Decryptor { .. }",
            "Aegis128LMac { .. }"
        ]
    )?;
    show!(
        rt,
        aegis128x2,
        SoftLanes128,
        16,
        Aegis128X2Mac,
        [
            "Aegis128X2 { .. }",
            "aegis128x2::Encryptor { .. }",
            "aegis128x2::Decryptor { .. }",
            "Aegis128X2Mac { .. }"
        ]
    )?;
    show!(
        rt,
        aegis128x4,
        SoftLanes128,
        16,
        Aegis128X4Mac,
        [
            "Aegis128X4 { .. }",
            "aegis128x4::Encryptor { .. }",
            "aegis128x4::Decryptor { .. }",
            "Aegis128X4Mac { .. }"
        ]
    )?;
    show!(
        rt,
        aegis256,
        SoftLanes256,
        32,
        Aegis256Mac,
        [
            "Aegis256 { .. }",
            "aegis256::Encryptor { .. }",
            "aegis256::Decryptor { .. }",
            "Aegis256Mac { .. }"
        ]
    )?;
    show!(
        rt,
        aegis256x2,
        SoftLanes256,
        32,
        Aegis256X2Mac,
        [
            "Aegis256X2 { .. }",
            "aegis256x2::Encryptor { .. }",
            "aegis256x2::Decryptor { .. }",
            "Aegis256X2Mac { .. }"
        ]
    )?;
    show!(
        rt,
        aegis256x4,
        SoftLanes256,
        32,
        Aegis256X4Mac,
        [
            "Aegis256X4 { .. }",
            "aegis256x4::Encryptor { .. }",
            "aegis256x4::Decryptor { .. }",
            "Aegis256X4Mac { .. }"
        ]
    )
}
