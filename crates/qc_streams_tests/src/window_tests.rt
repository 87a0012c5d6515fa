//! A receive window that is set anew: credit that stays, and credit that is owed.

use crate::acts::{Act, Given, number};
use crate::setups::{Setup, first_of_client, usual};
use qc_base::VarInt;
use qc_recv::Refusal as SideRefusal;
use qc_streams::Refusal;
use std::test::Fail;

/// A client that may keep 7 bytes.
fn setup() -> Setup {
    Setup {
        send_window: 7,
        ..usual()
    }
}

#[test]
fn a_lower_window_takes_no_credit_back(rt: HostRuntime) -> Result<(), Fail> {
    let flow = Some(Refusal::Side(SideRefusal::FlowControl));
    let acts = [
        Act::ReceiveWindow(number(32)),
        Act::ReceiveWindow(number(8)),
        Act::Stream(1, 0, 10, false, None),
        Act::Stream(3, 0, 10, false, None),
        Act::Stream(5, 0, 10, false, None),
        // 30 of 32 bytes came
        Act::Stream(7, 0, 3, false, flow),
        Act::Stream(7, 0, 2, false, None),
        // what is read gives nothing back until it exceeds what the lower window lacks
        Act::Read(1, true, 10, Given::Chunk(0, 10)),
        Act::Read(3, true, 10, Given::Chunk(0, 10)),
        Act::Credit(32),
        Act::Read(5, true, 10, Given::Chunk(0, 10)),
        Act::Credit(38),
    ];
    assert_eq!(rt; first_of_client(rt.alloc(), setup(), &acts)?, None);
    Ok(())
}

#[test]
fn a_larger_window_owes_credit(rt: HostRuntime) -> Result<(), Fail> {
    let acts = [
        Act::DataOwed(None),
        Act::ReceiveWindow(number(32)),
        Act::DataOwed(Some(32)),
        Act::SealData,
        Act::ReceiveWindow(number(8)),
        Act::DataOwed(None),
        // an eighth of 35 and of 36 bytes is 4: the one exceeds 32 by 3, the other by 4
        Act::ReceiveWindow(number(35)),
        Act::DataOwed(None),
        Act::ReceiveWindow(number(36)),
        Act::DataOwed(Some(36)),
        Act::SealData,
        // 10 bytes that are read and a window of 8 reach less than 36; with one of 30 they reach 40
        Act::ReceiveWindow(number(8)),
        Act::Stream(1, 0, 10, false, None),
        Act::Read(1, true, 10, Given::Chunk(0, 10)),
        Act::DataOwed(None),
        Act::Credit(36),
        Act::ReceiveWindow(number(30)),
        Act::DataOwed(Some(40)),
        // the largest window: what is announced is held at the greatest number that a frame has
        Act::ReceiveWindow(VarInt::MAX),
        Act::DataOwed(Some((1 << 62) - 1)),
        Act::Credit((1 << 62) + 9),
    ];
    assert_eq!(rt; first_of_client(rt.alloc(), setup(), &acts)?, None);
    Ok(())
}

#[test]
fn credit_that_no_frame_can_tell_owes_nothing(rt: HostRuntime) -> Result<(), Fail> {
    // the greatest number that a frame has
    let most = (1 << 62) - 1;
    let acts = [
        Act::ReceiveWindow(VarInt::MAX),
        Act::DataOwed(Some(most)),
        Act::SealData,
        // the window is lowered, and 10 bytes are read: the credit that was reached stays, and all of it is told
        Act::ReceiveWindow(number(16)),
        Act::Stream(1, 0, 10, false, None),
        Act::Read(1, true, 10, Given::Chunk(0, 10)),
        Act::DataOwed(None),
        Act::Credit(most),
        // raised again it would be greater by these 10 bytes, which no frame can tell
        Act::ReceiveWindow(VarInt::MAX),
        Act::Credit(most + 10),
        Act::DataOwed(None),
        Act::ReceiveWindow(number(16)),
        Act::Stream(3, 0, 10, false, None),
        Act::Read(3, true, 10, Given::Chunk(0, 10)),
        Act::DataOwed(None),
    ];
    assert_eq!(rt; first_of_client(rt.alloc(), setup(), &acts)?, None);
    Ok(())
}
