//! The two ends of one conversation, and the carrying of datagrams between them.

use crate::ends::End;
use qc_base::EcnCodepoint;
use qc_recovery::TransportConfig;
use std::alloc::{AllocError, Global};
use std::default::Default;
use std::test::Fail;

/// How a datagram is carried: how many times it comes, and with which mark of explicit congestion notification.
#[derive(Clone, Copy)]
pub(crate) struct Way {
    /// How many times it comes.
    pub(crate) copies: u32,
    /// The mark.
    pub(crate) ecn: Option<EcnCodepoint>,
}

/// Once, and without a mark.
pub(crate) const ONCE: Way = Way {
    copies: 1,
    ecn: None,
};

/// The two ends, and the time.
#[derive(Drop)]
pub(crate) struct Pair {
    /// The client.
    pub(crate) client: End,
    /// The server.
    pub(crate) server: End,
    /// The time in nanoseconds.
    pub(crate) nanos: u64,
}

/// The datagrams come to an end, in order.
pub(crate) fn deliver(
    alloc: Global,
    from: &End,
    to: &mut End,
    nanos: u64,
    flight: &[Vec<u8>],
    way: Way,
) -> Result<(), Fail> {
    for datagram in flight {
        for _ in 0..way.copies {
            to.takes(alloc, nanos, from.address, way.ecn, datagram.as_slice())?;
        }
    }
    Ok(())
}

impl Pair {
    /// Two ends that were just made.
    pub(crate) fn new(alloc: Global) -> Result<Pair, AllocError> {
        Pair::with_window(alloc, None)
    }

    /// The same, of which the server takes so many bytes of a stream, and of all streams together.
    pub(crate) fn with_window(alloc: Global, window: Option<u32>) -> Result<Pair, AllocError> {
        Pair::of(alloc, TransportConfig::default(), window)
    }

    /// Two ends, the client with this transport, and the server with so many bytes.
    pub(crate) fn of(
        alloc: Global,
        transport: TransportConfig,
        window: Option<u32>,
    ) -> Result<Pair, AllocError> {
        let client = End::client_with(alloc, 3, transport)?;
        let server = End::server(alloc, window)?;
        Ok(Pair {
            client,
            server,
            nanos: 0,
        })
    }

    /// The steps of both ends so far aren't told any more.
    pub(crate) fn forget(&mut self) {
        self.client.forget();
        self.server.forget();
    }

    /// The application of an end asks for a PING.
    pub(crate) fn ping(&mut self, alloc: Global, is_client: bool) -> Result<(), Fail> {
        if is_client {
            self.client.pings(alloc, self.nanos)
        } else {
            self.server.pings(alloc, self.nanos)
        }
    }

    /// The application of an end closes.
    pub(crate) fn close(&mut self, alloc: Global, is_client: bool) -> Result<(), Fail> {
        if is_client {
            self.client.closes(alloc, self.nanos)
        } else {
            self.server.closes(alloc, self.nanos)
        }
    }

    /// A microsecond later.
    pub(crate) fn wait(&mut self) {
        self.nanos = self.nanos.saturating_add(1000);
    }

    /// Carries a flight of the client's to the server, and says how many datagrams it had.
    fn to_server(&mut self, alloc: Global, way: Way) -> Result<usize, Fail> {
        self.wait();
        let flight = self.client.flight(alloc, self.nanos)?;
        deliver(
            alloc,
            &self.client,
            &mut self.server,
            self.nanos,
            flight.as_slice(),
            way,
        )?;
        Ok(flight.len())
    }

    /// Carries a flight of the server's to the client, and says how many datagrams it had.
    fn to_client(&mut self, alloc: Global, way: Way) -> Result<usize, Fail> {
        self.wait();
        let flight = self.server.flight(alloc, self.nanos)?;
        deliver(
            alloc,
            &self.server,
            &mut self.client,
            self.nanos,
            flight.as_slice(),
            way,
        )?;
        Ok(flight.len())
    }

    /// Carries a flight of the client's or of the server's, and says how many datagrams it had.
    pub(crate) fn carry_one(
        &mut self,
        alloc: Global,
        is_clients: bool,
        way: Way,
    ) -> Result<usize, Fail> {
        if is_clients {
            self.to_server(alloc, way)
        } else {
            self.to_client(alloc, way)
        }
    }

    /// Carries flights both ways until neither end sends, the client's first.
    pub(crate) fn carry(&mut self, alloc: Global, way: Way) -> Result<(), Fail> {
        for _ in 0..20 {
            let sent = self.carry_one(alloc, true, way)?;
            let answered = self.carry_one(alloc, false, way)?;
            if sent == 0 && answered == 0 {
                return Ok(());
            }
        }
        Err(Fail::from("the ends go on and on"))
    }
}
