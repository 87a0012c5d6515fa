//! The toy's keys and random words.

use bytes::BytesMut;
use qc_base::Side;
use qc_crypto::{
    AeadKey, CryptoError, HandshakeTokenKey, HeaderKey, HmacKey, KeySource, PacketKey,
};
use qc_toy::{Level, ToyHeaderKey, ToyHmacKey, ToyKeys, ToyTokenKey, ZeroRandom, secret_of_id};
use rand_core::Rng;
use std::test::Fail;

// A PING and padding, sealed and masked as the toy's rules say by hand: t = 88.
#[test]
fn a_packet_is_sealed_masked_and_opened(rt: HostRuntime) -> Result<(), Fail> {
    let keys = ToyKeys { secret: [0; 5] };
    let mut packet = *b"\x40\x07\x01\x00\x00\x00\0\0\0\0\0\0\0\0\0\0\0\0\0\0\0\0";
    keys.keys(Side::Client, 0).local.encrypt(7, &mut packet, 2);
    let header = ToyHeaderKey::new([0; 5], Level::Data, Side::Client);
    header.encrypt(1, &mut packet);
    let sealed =
        b"\x40\x5f\x01\x00\x00\x00\x58\xb0\x08\x60\xb8\x12\x68\xc0\x18\x70\xc8\x20\x78\xd0\x28\x80";
    assert_eq!(rt; packet, *sealed);

    header.decrypt(1, &mut packet);
    assert_eq!(rt; &packet[..2], b"\x40\x07".as_slice());
    let mate = keys.keys(Side::Server, 0).remote;
    let mut payload = BytesMut::copy_from_slice(rt.alloc(), &packet[2..])?;
    assert_eq!(rt;
        mate.decrypt(8, &packet[..2], &mut payload),
        Err(CryptoError)
    );
    let other = keys.keys(Side::Server, 1).remote;
    assert_eq!(rt;
        other.decrypt(7, &packet[..2], &mut payload),
        Err(CryptoError)
    );
    assert_eq!(rt; mate.decrypt(7, &packet[..2], &mut payload), Ok(()));
    assert_eq!(rt; payload.as_slice(), [1, 0, 0, 0].as_slice());
    Ok(())
}

#[test]
fn keys_for_ids_resets_and_tokens(rt: HostRuntime) -> Result<(), Fail> {
    assert_eq!(rt; secret_of_id(&[2; 8]), [4, 4, 4, 2, 2]);

    let reset_key = ToyHmacKey::new([0; 16]);
    let mut signature = [0; 16];
    reset_key.sign(&[1; 8], &mut signature);
    let expected = b"\x24\x48\x6c\x90\xb4\xd8\xfc\x20\x44\x68\x8c\xb0\xd4\xf8\x1c\x40";
    assert_eq!(rt; signature, *expected);
    assert_eq!(rt; reset_key.verify(&[1; 8], expected), Ok(()));
    assert_eq!(rt; reset_key.verify(&[1; 7], expected), Err(CryptoError));
    Ok(())
}

// The validation token of the address ::1 at 42 s, its nonce and master key zero.
#[test]
fn a_token_is_sealed(rt: HostRuntime) -> Result<(), Fail> {
    let token_key = ToyTokenKey::new([0; 16]).aead_from_hkdf(&[0; 16]);
    let plain = b"\x01\x01\0\0\0\0\0\0\0\0\0\0\0\0\0\0\0\x01\0\0\0\0\0\0\0\x2a";
    let sealed = b"\x01\x01\0\0\0\0\0\0\0\0\0\0\0\0\0\0\0\x01\0\0\0\0\0\0\0\x2a\
        \x59\xb2\x0b\x64\xbd\x16\x6f\xc8\x21\x7a\xd3\x2c\x85\xde\x37\x90";
    let mut token = Vec::from_slice(rt.alloc(), plain)?;
    token_key.seal(&mut token, &[])?;
    assert_eq!(rt; token.as_slice(), sealed.as_slice());
    assert!(rt; token_key.open(token.as_mut_slice(), b"\x01").is_err());
    assert_eq!(rt; token.as_slice(), sealed.as_slice());
    let opened = token_key.open_in_place(token.as_mut_slice(), &[]);
    assert_eq!(rt; opened, Ok(26));
    Ok(())
}

#[test]
fn random_words_are_zero(rt: HostRuntime) {
    let mut random = ZeroRandom;
    let mut bytes = [1; 3];
    random.fill_bytes(&mut bytes);
    assert_eq!(rt; bytes, [0; 3]);
    assert_eq!(rt; random.next_u32(), 0);
    assert_eq!(rt; random.next_u64(), 0);
}
