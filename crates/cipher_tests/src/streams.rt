//! The end of a sealed stream, and the texts of its two types.

use aegis_stream::{Opener, Sealer, StreamError};
use std::test::Fail;

#[test]
fn a_stream_is_sealed_to_its_end(rt: HostRuntime) -> Result<(), Fail> {
    let mut sealer = Sealer::new(&[3; 16], &[1; 8]);
    let mut out = [0u8; 32];
    assert_eq!(rt; sealer.seal(b"", true, &mut out), Ok(21));
    let frame = out;
    assert_eq!(rt; sealer.frames(), 1);
    assert_eq!(rt;
        sealer.seal(b"more", true, &mut out),
        Err(StreamError::Finished)
    );
    assert!(rt; out == frame && sealer.frames() == 1);
    assert_eq!(rt;
        format!(in rt.alloc(); "{sealer:?}")?.as_str(),
        "Sealer { .. }"
    );
    let opener = Opener::new(rt.alloc(), &[3; 16])?;
    assert_eq!(rt;
        format!(in rt.alloc(); "{opener:?}")?.as_str(),
        "Opener { .. }"
    );
    Ok(())
}
