//! What the application is answered before and after the peer's limits are known.

use crate::acts::{Act, number};
use crate::setups::{Setup, first_of_client, usual};
use qc_base::Dir;
use qc_streams::{PeerLimits, WriteError};
use std::test::Fail;

#[test]
fn a_write_takes_what_there_is_credit_for(rt: HostRuntime) -> Result<(), Fail> {
    let setup = Setup {
        window: 10,
        ..usual()
    };
    let limits = PeerLimits {
        all_data: 100,
        bidi_streams: 1,
        uni_streams: 0,
        peer_bidi_data: number(0),
        own_bidi_data: number(3),
        own_uni_data: number(0),
    };
    let acts = [
        Act::Open(Dir::Bi, None),
        Act::Limits(limits),
        Act::Open(Dir::Bi, Some(0)),
        // 5 bytes are written where the stream has credit for 3
        Act::Write(0, 5, Ok(3)),
        Act::Write(0, 5, Err(WriteError::Blocked)),
    ];
    assert_eq!(rt; first_of_client(rt.alloc(), setup, &acts)?, None);
    Ok(())
}
