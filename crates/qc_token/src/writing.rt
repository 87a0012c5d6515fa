//! The plain bytes of a token.

ghost use Rattle.std.specs.Prelude.{◌≡◌, ◌+◌, ◌++◌, length, OnOk};
ghost use Rattle.qc_token.specs.TokenSpelling.{ip_bytes, ip_len, payload_bytes, payload_len, time_bytes};

use crate::TokenPayload;
use qc_base::{ConnectionId, SystemTime};
use std::alloc::AllocError;
use std::net::{IpAddr, SocketAddr};

#[tactic(auto, unfolding(crate::specs::TokenSpelling::ip_bytes))]
fn put_ip(out: &mut Vec<u8>, ip: &IpAddr) -> Result<(), AllocError>
    ensures bytes { OnOk result (out.new.items ≡ out.old.items ++ ip_bytes ip.now) }
    ensures size { OnOk result (length out.new.items ≡ length out.old.items + ip_len ip.now) }
{
    match ip {
        IpAddr::V4(ip) => {
            out.extend_from_slice(&[0])?;
            out.extend_from_slice(&ip.octets())
        }
        IpAddr::V6(ip) => {
            out.extend_from_slice(&[1])?;
            out.extend_from_slice(&ip.octets())
        }
    }
}

#[tactic(auto, unfolding(crate::specs::TokenSpelling::time_bytes))]
fn put_time(out: &mut Vec<u8>, time: SystemTime) -> Result<(), AllocError>
    ensures bytes { OnOk result (out.new.items ≡ out.old.items ++ time_bytes time) }
    ensures size { OnOk result (length out.new.items ≡ length out.old.items + 8) }
{
    out.extend_from_slice(&(time.nanos() / 1_000_000_000).to_be_bytes())
}

#[tactic(auto, unfolding(crate::specs::TokenSpelling::payload_bytes))]
pub(crate) fn put_payload(out: &mut Vec<u8>, payload: &TokenPayload) -> Result<(), AllocError>
    ensures bytes { OnOk result (out.new.items ≡ out.old.items ++ payload_bytes payload.now) }
    ensures size { OnOk result (length out.new.items ≡ length out.old.items + payload_len payload.now) }
{
    match payload {
        TokenPayload::Retry {
            address,
            orig_dst_cid,
            issued,
        } => {
            out.extend_from_slice(&[0])?;
            put_ip(out, &address.ip())?;
            out.extend_from_slice(&address.port().to_be_bytes())?;
            out.extend_from_slice(&[orig_dst_cid.len() as u8])?;
            out.extend_from_slice(orig_dst_cid.as_slice())?;
            put_time(out, *issued)
        }
        TokenPayload::Validation { ip, issued } => {
            out.extend_from_slice(&[1])?;
            put_ip(out, ip)?;
            put_time(out, *issued)
        }
    }
}
