//! The application's views of a connection's streams.

use crate::call_tests::{
    END_FOR_STREAMS, STREAM_3, STREAM_3_END, Told, established, hear, number_of, own, peers, seals,
};
use crate::clients::{Toy, client_at, sealed_len};
use qc_base::{Dir, Fault, StreamId};
use qc_conn::{Connection, ReadError, WriteError};
use std::test::Fail;

/// The id of a stream that the application opens by the view of all streams.
fn opened(client: &mut Connection<Toy>, dir: Dir) -> Result<Option<u64>, Fault> {
    let id = client.streams().open(dir)?;
    Ok(id.map(StreamId::value))
}

/// The id of a stream that it accepts by that view.
fn accepted(client: &mut Connection<Toy>, dir: Dir) -> Option<u64> {
    let id = client.streams().accept(dir);
    id.map(StreamId::value)
}

/// How many bytes are written by the view of a stream; None where this end doesn't send on it.
fn wrote(
    client: &mut Connection<Toy>,
    id: StreamId,
    bytes: &[u8],
) -> Option<Result<usize, WriteError>> {
    if !client.sends_on(id) {
        return None;
    }
    let mut stream = client.send_stream(id);
    Some(stream.write(bytes))
}

/// Whether a stream is finished by its view.
fn finished(client: &mut Connection<Toy>, id: StreamId) -> bool {
    client.sends_on(id) && client.send_stream(id).finish().is_ok()
}

/// What a read by the view of a stream gives, in order and at most so many bytes: their offset, and the number that they spell. None where
/// this end doesn't receive on it, or it can't be read.
fn read(
    client: &mut Connection<Toy>,
    id: StreamId,
    most: usize,
) -> Option<Result<Option<(u64, u64)>, ReadError>> {
    if !client.receives_on(id) {
        return None;
    }
    let mut stream = client.recv_stream(id);
    let mut chunks = stream.read(true).ok()?;
    Some(match chunks.next(most) {
        Ok(Some(chunk)) => Ok(Some((chunk.offset, number_of(chunk.bytes.as_slice())))),
        Ok(None) => Ok(None),
        Err(error) => Err(error),
    })
}

// What was written by views is sealed: 0b is a STREAM frame with its length and its end, from offset 0 (RFC 9000, section 19.8).
#[test]
fn a_stream_is_opened_and_written_on_by_views(rt: HostRuntime) -> Result<(), Fail> {
    let alloc = rt.alloc();
    let mut client = established(alloc, &END_FOR_STREAMS).ok_or("no client")?;
    assert_eq!(rt; opened(&mut client, Dir::Bi), Ok(Some(0)));
    assert_eq!(rt; opened(&mut client, Dir::Uni), Ok(Some(2)));
    assert_eq!(rt; wrote(&mut client, own(Dir::Bi), b"hello"), Some(Ok(5)));
    assert_eq!(rt; wrote(&mut client, peers(Dir::Uni), b"hello"), None);
    assert!(rt; finished(&mut client, own(Dir::Bi)));
    assert!(rt; !finished(&mut client, own(Dir::Bi)));
    assert!(rt;
        seals(
            alloc,
            &mut client,
            "seal data 1 0 STREAM/0b000568656c6c6f\n"
        )?
    );
    Ok(())
}

// Bytes are read in order, up to the first gap.
#[test]
fn a_stream_is_accepted_and_read_by_views(rt: HostRuntime) -> Result<(), Fail> {
    let alloc = rt.alloc();
    let mut client = established(alloc, &END_FOR_STREAMS).ok_or("no client")?;
    let id = peers(Dir::Uni);
    assert_eq!(rt; accepted(&mut client, Dir::Uni), None);
    assert_eq!(rt; hear(alloc, &mut client, 4, &STREAM_3), Some(Told::Done));
    assert_eq!(rt;
        hear(alloc, &mut client, 4, &STREAM_3_END),
        Some(Told::Done)
    );
    assert_eq!(rt; accepted(&mut client, Dir::Uni), Some(3));
    assert_eq!(rt; client.streams().remote_open_streams(Dir::Uni), 1);
    assert_eq!(rt; read(&mut client, id, 2), Some(Ok(Some((0, 0x6865)))));
    assert_eq!(rt; read(&mut client, id, 100), Some(Ok(Some((2, 0x6c_6c6f)))));
    assert_eq!(rt; read(&mut client, id, 100), Some(Err(ReadError::Blocked)));
    assert_eq!(rt; read(&mut client, own(Dir::Uni), 100), None);
    Ok(())
}

#[test]
fn views_of_a_failed_connection_refuse(rt: HostRuntime) -> Result<(), Fail> {
    let mut client = client_at(rt.alloc(), 0, true).ok_or("no client")?;
    assert!(rt; client.is_failed());
    assert_eq!(rt; opened(&mut client, Dir::Bi), Err(Fault::Failed));
    assert_eq!(rt;
        wrote(&mut client, own(Dir::Bi), b"hello"),
        Some(Err(WriteError::Failed))
    );
    assert_eq!(rt; sealed_len(rt.alloc(), &mut client, 3), None);
    Ok(())
}
